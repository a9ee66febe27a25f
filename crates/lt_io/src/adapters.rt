ghost use Rattle.std.specs.Prelude.{◌≡◌};

use crate::sink::Sink;
use crate::source::{Failed, Source, ends_after};
use std::io::{Read, Write};

/// A reader of std as a source. Every error of the reader is a fault, an interruption too.
#[derive(Drop)]
pub struct ReaderSource<R> {
    reader: R,
    given: u64,
    faults: u64,
    ends: u64,
}

impl<R: Read + Drop> ReaderSource<R> {
    pub fn new(reader: R) -> ReaderSource<R>
        ensures left { (⟦<ReaderSource<R> as Source>⟧.state result).left ≡ R.remaining reader }
        ensures given { (⟦<ReaderSource<R> as Source>⟧.state result).given ≡ 0 }
        ensures faults { (⟦<ReaderSource<R> as Source>⟧.state result).faults ≡ 0 }
        ensures ends { (⟦<ReaderSource<R> as Source>⟧.state result).ends ≡ 0 }
    {
        ReaderSource {
            reader,
            given: 0,
            faults: 0,
            ends: 0,
        }
    }
}

impl<R: Read + Drop> Source for ReaderSource<R> {
    ghost state = { λ s. record { left = R.remaining s.reader; given = s.given; faults = s.faults; ends = s.ends } };

    fn read(&mut self, buf: &mut [u8]) -> Result<usize, Failed> {
        let Ok(count) = self.reader.read(buf) else {
            self.faults = self.faults.saturating_add(1);
            return Err(Failed);
        };
        self.ends = ends_after(self.ends, buf.len(), count);
        self.given = self.given.saturating_add(count as u64);
        Ok(count)
    }
}

/// A writer of std as a sink. Every error of the writer is a fault, and so is a write that takes
/// nothing of a piece that is not empty.
#[derive(Drop)]
pub struct WriterSink<W> {
    writer: W,
    faults: u64,
}

impl<W: Write + Drop> WriterSink<W> {
    pub fn new(writer: W) -> WriterSink<W>
        ensures held { ⟦<WriterSink<W> as Sink>⟧.held result ≡ W.contents writer }
        ensures faults { ⟦<WriterSink<W> as Sink>⟧.faults result ≡ 0 }
    {
        WriterSink { writer, faults: 0 }
    }
}

impl<W: Write + Drop> Sink for WriterSink<W> {
    ghost held = { λ s. W.contents s.writer };

    ghost faults = { λ s. s.faults };

    fn write(&mut self, piece: &[u8]) -> Result<usize, Failed> {
        match self.writer.write(piece) {
            Ok(count) if count > 0 || piece.is_empty() => Ok(count),
            _ => {
                self.faults = self.faults.saturating_add(1);
                Err(Failed)
            }
        }
    }
}
