ghost use Rattle.std.specs.Prelude.{length};
ghost use Rattle.std.specs.Io.{ReadsAtMost};
ghost use Rattle.std.specs.Io.KnownBytes.{ReadConsumes};
ghost use Rattle.lt_io.specs.Streams.{HasCause, SourceState, CountsEnd, Ends, Gives};

use std::error::Error;
use std::fmt;

/// A read or a write did not do its work, and moved no byte.
#[derive(Clone, Copy, Debug, PartialEq, Eq)]
pub struct Failed;

impl fmt::Display for Failed {
    ghost use Rattle.std.specs.Prelude.{Some, codes};

    ghost output = { λ _. Some (codes "the read or write failed") };

    fn fmt<W: fmt::Write>(&self, f: &mut fmt::Formatter<W>) -> fmt::Result {
        f.write_str("the read or write failed")
    }
}

impl Error for Failed {}

/// Where bytes come from.
pub trait Source {
    // What it tells of itself. Its counts stop at 2^64 - 1 and never fall.
    ghost state: { Self → SourceState };

    /// Fills the front of the buffer and returns how many bytes it gave. An `Ok` of zero for a buffer
    /// that is not empty is the end of the input.
    fn read(&mut self, buf: &mut [u8]) -> Result<usize, Failed>
        ensures bound { ReadsAtMost result buf.new }
        ensures bytes { ReadConsumes (state self.old).left (state self.new).left result buf.new }
        ensures count { Gives (state self.old).given (state self.new).given result }
        ensures cause { HasCause (state self.old).faults (state self.new).faults result }
        ensures end { Ends (state self.old).ends (state self.new).ends (length buf.new) result };
}

/// The count of ends after a read that gave so many bytes to a buffer with so much room.
pub(crate) fn ends_after(ends: u64, room: usize, count: usize) -> u64
    ensures { CountsEnd ends result room count }
{
    if count == 0 && room > 0 {
        ends.saturating_add(1)
    } else {
        ends
    }
}
