ghost use Rattle.std.specs.Prelude.{◌≡◌, ◌+◌, ◌-◌, ◌<◌, None, Some, [], min, drop, take, length};
ghost use Rattle.std.specs.Io.KnownBytes.{Consumes};

use crate::sink::Sink;
use crate::source::{Failed, Source, ends_after};

/// A source of bytes in memory that never fails.
#[derive(Debug, Drop)]
pub struct SureSource {
    pub bytes: Vec<u8>,
    pub at: usize,
    pub given: u64,
    pub ends: u64,
}

impl Source for SureSource {
    ghost state = { λ s. record { left = Some (drop s.at s.bytes.items); given = s.given; faults = 0; ends = s.ends } };

    fn read(&mut self, buf: &mut [u8]) -> Result<usize, Failed> {
        let count = copy_front(self.bytes.as_slice(), self.at, buf);
        self.ends = ends_after(self.ends, buf.len(), count);
        self.at += count;
        self.given = self.given.saturating_add(count as u64);
        Ok(count)
    }
}

/// A sink that drops what it is given and never fails.
#[derive(Clone, Copy, Debug)]
pub struct SureSink;

impl Sink for SureSink {
    ghost held = { λ _. None };

    ghost faults = { λ _. 0 };

    fn write(&mut self, piece: &[u8]) -> Result<usize, Failed>
        ensures { result ≡ Ok (length piece.now) }
    {
        Ok(piece.len())
    }
}

/// Copies what stands from place `at` on to the front of the buffer, as much as fits, and returns how
/// much that is.
pub(crate) fn copy_front(bytes: &[u8], at: usize, buf: &mut [u8]) -> usize
    ensures count { result ≡ min (length bytes.now - at) (length buf.new) }
    ensures copied { Consumes (Some (drop at bytes.now)) (Some (drop (at + result) bytes.now))
        (take result buf.new) }
    ensures all_copied { result ≡ 0 → 0 < length buf.new → drop (at + result) bytes.now ≡ [] }
{
    let left = &bytes[at.min(bytes.len())..];
    let count = left.len().min(buf.len());
    buf[..count].copy_from_slice(&left[..count]);
    count
}
