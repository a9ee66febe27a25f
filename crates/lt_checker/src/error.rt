ghost use Rattle.std.specs.Prelude.{◌≡◌};
ghost use Rattle.lt_checker.specs.declared.error.ReplayError.TheVariants.{Memory};

use lt_io::ReadFailure;
use lt_script::ScriptFault;
use std::alloc::AllocError;

/// Why there is no run that a journal tells.
#[derive(Clone, Copy, Debug, PartialEq, Eq)]
pub enum ReplayError {
    /// Memory was refused.
    Memory,
    /// The first bad line, counted from 1. Where a line is missing, it is the one after the last.
    Bad { line: u32 },
}

impl From<AllocError> for ReplayError {
    ghost from_gives = { λ _ e. e ≡ Memory };

    fn from(_: AllocError) -> ReplayError {
        ReplayError::Memory
    }
}

/// Why an input is not a script and the journal of a run of it.
#[derive(Clone, Copy, Debug, PartialEq, Eq)]
pub enum InputError {
    /// A read failed.
    ReadFault,
    /// The input is longer than it may be.
    TooLong,
    /// Memory was refused.
    NoMemory,
    /// The script has this fault.
    Refused(ScriptFault),
    /// The first bad line, counted from 1 in the whole input.
    BadJournal { line: u32 },
}

impl From<ReadFailure> for InputError {
    ghost use Rattle.lt_checker.specs.Input.{error_of};

    ghost from_gives = { λ failure error. error ≡ error_of failure };

    fn from(failure: ReadFailure) -> InputError {
        match failure {
            ReadFailure::Memory => InputError::NoMemory,
            ReadFailure::Failed => InputError::ReadFault,
            ReadFailure::TooLong => InputError::TooLong,
        }
    }
}
