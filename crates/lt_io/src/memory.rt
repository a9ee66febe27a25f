ghost use Rattle.std.specs.Prelude.{◌≡◌, ◌-◌, ◌↔◌, Some, min, length, IsTrue, IsFalse, IsErr, IfOk, Contains};
ghost use Rattle.std.specs.Io.{ReadsAtMost};
ghost use Rattle.std.specs.Io.KnownBytes.{ReadConsumes, WriteAppends};
ghost use Rattle.lt_io.specs.Streams.{count_after, HasCause, Ends, Gives, TakesSome, KeepsPace};
ghost use Rattle.lt_io.specs.Memory.{StopsWrite, RefusesWrite};

use crate::sink::Sink;
use crate::source::{Failed, Source, ends_after};
use crate::sure::copy_front;

/// A source of bytes in memory for tests of its callers: the calls whose numbers stand in `fails`,
/// counted from 1, fail.
#[derive(Debug, Drop)]
pub struct MemorySource {
    pub bytes: Vec<u8>,
    pub at: usize,
    pub calls: u64,
    pub fails: Vec<u64>,
    pub given: u64,
    pub faults: u64,
    pub ends: u64,
}

impl Source for MemorySource {
    ghost use Rattle.lt_io.specs.Memory.{source_state};

    ghost state = { source_state };

    fn read(&mut self, buf: &mut [u8]) -> Result<usize, Failed>
        ensures called { self.new.calls ≡ count_after self.old.calls 1 }
        ensures failed { IsErr result ↔ Contains self.old.fails.items self.new.calls }
        ensures gave { IfOk result (λ n.
            n ≡ min (length self.old.bytes.items - self.old.at) (length buf.new)) }
        ensures kept { (self.new.bytes ≡ self.old.bytes) × (self.new.fails ≡ self.old.fails) }

        ensures bound { ReadsAtMost result buf.new }
        ensures bytes { ReadConsumes (source_state self.old).left (source_state self.new).left result buf.new }
        ensures count { Gives self.old.given self.new.given result }
        ensures cause { HasCause self.old.faults self.new.faults result }
        ensures end { Ends self.old.ends self.new.ends (length buf.new) result }
    {
        self.calls = self.calls.saturating_add(1);
        if self.fails.contains(&self.calls) {
            self.faults = self.faults.saturating_add(1);
            return Err(Failed);
        }
        let count = copy_front(self.bytes.as_slice(), self.at, buf);
        self.ends = ends_after(self.ends, buf.len(), count);
        self.at += count;
        self.given = self.given.saturating_add(count as u64);
        Ok(count)
    }
}

/// A sink in memory for tests of its callers: one write takes at most `per_write` bytes, and the calls
/// whose numbers stand in `fails`, counted from 1, fail. So does a write for which memory is wanting.
#[derive(Debug, Drop)]
pub struct MemorySink {
    pub bytes: Vec<u8>,
    pub per_write: usize,
    pub calls: u64,
    pub fails: Vec<u64>,
    pub faults: u64,
}

impl Sink for MemorySink {
    ghost use Rattle.lt_io.specs.Memory.{pace_of};

    ghost held = { λ s. Some s.bytes.items };

    ghost faults = { λ s. s.faults };

    ghost pace = { pace_of };

    fn write(&mut self, piece: &[u8]) -> Result<usize, Failed>
        ensures called { self.new.calls ≡ count_after self.old.calls 1 }
        ensures listed { Contains self.old.fails.items self.new.calls → IsErr result }
        ensures failed { IsErr result → RefusesWrite self.old self.new.calls (length piece.now) }
        ensures took { IfOk result (λ n. n ≡ min self.old.per_write (length piece.now)) }
        ensures kept { (self.new.per_write ≡ self.old.per_write) × (self.new.fails ≡ self.old.fails) }

        ensures count { TakesSome result piece.now }
        ensures bytes { WriteAppends (Some self.old.bytes.items) (Some self.new.bytes.items)
            result piece.now }
        ensures cause { HasCause self.old.faults self.new.faults result }
        ensures pace { KeepsPace (pace_of self.old) (pace_of self.new) result piece.now }
    {
        self.calls = self.calls.saturating_add(1);
        let count = piece.len().min(self.per_write);
        if self.is_stopped(piece.len()) || self.bytes.extend_from_slice(&piece[..count]).is_err() {
            self.faults = self.faults.saturating_add(1);
            return Err(Failed);
        }
        Ok(count)
    }
}

impl MemorySink {
    // Whether a write of a piece of this length fails, whatever memory there is.
    fn is_stopped(&self, size: usize) -> bool
        ensures stopped { IsTrue result → StopsWrite self.now self.now.calls size }
        ensures goes_on { IsFalse result → ¬ StopsWrite self.now self.now.calls size }
    {
        self.fails.contains(&self.calls) || (self.per_write == 0 && size > 0)
    }
}
