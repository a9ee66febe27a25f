//! Why bytes are no frame, and why none was read or written.

ghost use Rattle.std.specs.Prelude.{◌≡◌};
ghost use Rattle.lt_frames.specs.declared.fault.FrameError.TheVariants as errors;
ghost use Rattle.lt_frames.specs.declared.fault.WriteError.TheVariants as write_errors;

use lt_letters::Fault;
use std::alloc::AllocError;

/// What is wrong with a frame: the first of these in this order.
#[derive(Clone, Copy, Debug, PartialEq, Eq)]
pub enum FrameFault {
    /// Its letter would have more bytes than a letter may have.
    TooLong,
    /// It is of another version of the format.
    Version,
    /// It is of another service.
    Service,
    /// It is of another node than that it is said to come from.
    Sender,
    /// It is for another node.
    Receiver,
    /// Its seal isn't that of its head and its letter under the key.
    Seal,
    /// What its seal is right for is no letter.
    Letter(Fault),
}

/// Why no frame was read.
#[derive(Debug, Drop)]
pub enum FrameError {
    /// The bytes begin with a frame whose letter found no memory. It may be read again.
    Memory,
    Fault(FrameFault),
}

impl From<FrameFault> for FrameError {
    ghost from_gives = { λ fault e. e ≡ errors.Fault fault };

    fn from(fault: FrameFault) -> FrameError {
        FrameError::Fault(fault)
    }
}

/// Why no frame was written.
#[derive(Clone, Copy, Debug, PartialEq, Eq)]
pub enum WriteError {
    /// There is no room for the frame, and no memory for more.
    Memory,
    /// The letter has more bytes than a letter may have.
    TooLong,
}

impl From<AllocError> for WriteError {
    ghost from_gives = { λ _ e. e ≡ write_errors.Memory };

    fn from(_e: AllocError) -> WriteError {
        WriteError::Memory
    }
}
