ghost use Rattle.std.specs.Prelude.{◌≤◌, IfOk};

use crate::telling::same;
use lt_io::{Failed, ReaderSource, Source, WriterSink, read_all, write_all};
use std::io::{self, ErrorKind, Read, Write};

#[test]
fn streams_of_std(rt: HostRuntime) {
    let text: &[u8] = b"ask and tell";
    let mut source = ReaderSource::new(text);
    let bytes = read_all(rt.alloc(), &mut source, text.len()).expect(&rt, "all bytes");
    same(&rt, bytes.as_slice(), text);
    // A read after the end is an end too.
    let mut buf = [0; 4];
    same(&rt, source.read(&mut buf), Ok(0));
    let mut sink = WriterSink::new(Vec::new(rt.alloc()));
    same(&rt, write_all(&mut sink, text), Ok(()));
}

// A reader and a writer whose first call fails, and whose others move one byte.
#[derive(Drop)]
struct FailsOnce {
    calls: u8,
}

impl FailsOnce {
    fn call(&mut self, most: usize) -> io::Result<usize>
        ensures { IfOk result (λ count. count ≤ most) }
    {
        self.calls = self.calls.saturating_add(1);
        if self.calls == 1 {
            return Err(ErrorKind::Interrupted.into());
        }
        Ok(most.min(1))
    }
}

impl Read for FailsOnce {
    fn read(&mut self, buf: &mut [u8]) -> io::Result<usize> {
        self.call(buf.len())
    }
}

impl Write for FailsOnce {
    fn write(&mut self, buf: &[u8]) -> io::Result<usize> {
        self.call(buf.len())
    }

    fn flush(&mut self) -> io::Result<()> {
        Ok(())
    }
}

#[test]
fn a_call_that_failed_is_not_made_again(rt: HostRuntime) {
    let mut source = ReaderSource::new(FailsOnce { calls: 0 });
    let mut buf = [0; 4];
    same(&rt, source.read(&mut buf), Err(Failed));
    same(&rt, source.read(&mut buf), Ok(1));
    let mut sink = WriterSink::new(FailsOnce { calls: 0 });
    same(&rt, write_all(&mut sink, b"tell"), Err(Failed));
    same(&rt, write_all(&mut sink, b"tell"), Ok(()));
}
