// Why bytes were not taken in.
ghost use Rattle.std.specs.Prelude.{◌≡◌};
ghost use Rattle.lt_apart.specs.Faults.{wire_fault};

use lt_frames::{FrameError, FrameFault};
use lt_letters::Fault;

/// Why a frame was not taken in. The node is as it was.
#[derive(Clone, Copy, Debug, PartialEq, Eq)]
pub enum WireFault {
    /// There is no memory for its letter. It may be brought again.
    Memory,
    /// Its letter is longer than a letter may be.
    TooLong,
    /// It is of another version of the format.
    Version,
    /// It is of another service: of another script, or of an earlier start.
    Service,
    /// It was given out by another node than the one that it is said to come from.
    Sender,
    /// It was given out for another node.
    Receiver,
    /// Its seal isn't that of its head and its letter under the key of the service.
    Seal,
    /// What its seal is right for is no letter.
    Letter(Fault),
    /// It was brought before.
    Again,
    /// Frames before it are missing.
    Missing,
}

/// A frame that was not taken in, and those before it that were.
#[derive(Clone, Copy, Debug, PartialEq, Eq)]
pub struct Refused {
    /// How many bytes the frames before it have.
    pub used: usize,
    pub fault: WireFault,
}

/// The same fault, as one who takes letters in says it.
pub(crate) fn of_frame(fault: FrameFault) -> WireFault
    ensures { result ≡ wire_fault fault }
{
    match fault {
        FrameFault::TooLong => WireFault::TooLong,
        FrameFault::Version => WireFault::Version,
        FrameFault::Service => WireFault::Service,
        FrameFault::Sender => WireFault::Sender,
        FrameFault::Receiver => WireFault::Receiver,
        FrameFault::Seal => WireFault::Seal,
        FrameFault::Letter(fault) => WireFault::Letter(fault),
    }
}
