ghost use Rattle.std.specs.Prelude.{ℕ, List, Option, None};
ghost use Rattle.std.specs.Io.KnownBytes.{WriteAppends};
ghost use Rattle.lt_io.specs.Streams.{HasCause, TakesSome, Pace, KeepsPace};

use crate::source::Failed;

/// Where bytes go to.
pub trait Sink {
    // The bytes that it holds, where the sink tells them.
    ghost held: { Self → Option (List ℕ) };

    // How often it failed, a count that stops at 2^64 - 1 and never falls.
    ghost faults: { Self → ℕ };

    // How it takes pieces, where the sink tells it.
    ghost pace: { Self → Option Pace } = { λ _. None };

    /// Takes a first part of the piece and returns how long that is. A sink that can take nothing of a
    /// piece that is not empty fails.
    fn write(&mut self, piece: &[u8]) -> Result<usize, Failed>
        ensures count { TakesSome result piece.now }
        ensures bytes { WriteAppends (held self.old) (held self.new) result piece.now }
        ensures cause { HasCause (faults self.old) (faults self.new) result }
        ensures pace { KeepsPace (pace self.old) (pace self.new) result piece.now };
}
