// Reads and writes that fail in turn.
use crate::running::{call, sink_of, source_of};
use crate::telling::same;
use lt_runner::Open;
use lt_serve::{Status, USUAL};
use std::alloc::Global;
use std::process::Abort;
use std::thread::Threads;

const ONE_LOCK: &str = "nodes 1\n\
set s\n\
client a at 0\n\
a lock s write\n\
a unlock s write\n";

const ITS_JOURNAL: &[u8] = b"move 1 0 act a\n\
grant a s write\n\
move 2 0 act a\n\
unlock a s write\n\
owner s 0 0\n\
end 2\n";

// The read and the write of these numbers fail, and a write takes so many bytes, so that the answer is this and so many
// are written.
fn fails<R: Abort + Threads + Sync>(
    rt: &R,
    alloc: Global,
    (read, write): (u64, u64),
    per_write: usize,
    status: Status,
    written: usize,
) {
    let mut source = source_of(rt, alloc, ONE_LOCK, read);
    let mut sink = sink_of(rt, alloc, per_write, write);
    let served = call(rt, alloc, USUAL, &["run"], &mut source, &mut sink, &Open);
    same(rt, served.status, status);
    let (text, _) = ITS_JOURNAL.split_at(written.min(ITS_JOURNAL.len()));
    same(rt, sink.bytes.as_slice(), text);
}

// There are two reads, the second of which finds the end, and nine writes.
#[test]
fn failing_reads_and_writes(rt: HostRuntime) {
    fails(&rt, rt.alloc(), (1, 0), 10, Status::ReadFault, 0);
    fails(&rt, rt.alloc(), (2, 0), 10, Status::ReadFault, 0);
    fails(&rt, rt.alloc(), (3, 10), 10, Status::Done, 81);
    fails(&rt, rt.alloc(), (0, 1), 10, Status::WriteFault, 0);
    fails(&rt, rt.alloc(), (0, 3), 10, Status::WriteFault, 20);
    fails(&rt, rt.alloc(), (0, 9), 10, Status::WriteFault, 80);
}

// A write takes one byte, and each of the 81 fails in turn; there is no further one.
#[test]
fn failing_writes_of_one_byte(rt: HostRuntime) {
    for written in 0..81 {
        fails(
            &rt,
            rt.alloc(),
            (0, written + 1),
            1,
            Status::WriteFault,
            written as usize,
        );
    }
    fails(&rt, rt.alloc(), (0, 82), 1, Status::Done, 81);
}
