//! Why bytes are no letter.

ghost use Rattle.std.specs.Prelude.{◌≡◌};
ghost use Rattle.lt_letters.specs.declared.fault.ReadError.TheVariants as errors;

use std::alloc::{AllocError, AllocFailed};

/// What is wrong with the bytes: the first fault from left to right.
#[derive(Clone, Copy, Debug, PartialEq, Eq)]
pub enum Fault {
    /// The bytes end before the letter does.
    Short,
    /// A byte stands for no mode, no flag, or no kind of letter.
    Unknown,
    /// More nodes, or more unanswered asks of a node, than there may be.
    TooMany,
    /// Bytes stand after the letter.
    Trailing,
}

/// Why no letter was read.
#[derive(Debug, Drop)]
pub enum ReadError {
    /// The bytes are those of a letter, which found no memory.
    Memory,
    Fault(Fault),
}

impl From<Fault> for ReadError {
    ghost from_gives = { λ fault e. e ≡ errors.Fault fault };

    fn from(fault: Fault) -> ReadError {
        ReadError::Fault(fault)
    }
}

impl From<AllocError> for ReadError {
    ghost from_gives = { λ _ e. e ≡ errors.Memory };

    fn from(_e: AllocError) -> ReadError {
        ReadError::Memory
    }
}

impl<T: Drop> From<AllocFailed<T>> for ReadError {
    ghost from_gives = { λ _ e. e ≡ errors.Memory };

    fn from(_e: AllocFailed<T>) -> ReadError {
        ReadError::Memory
    }
}
