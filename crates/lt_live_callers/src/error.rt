// Why callers aren't served.
ghost use Rattle.std.specs.Prelude.{◌≡◌};
ghost use Rattle.lt_live_callers.specs.declared.error.CallersError.TheVariants as errors;

use std::alloc::AllocError;
use std::error::Error;
use std::fmt;

/// Why callers aren't served.
#[derive(Clone, Copy, Debug, PartialEq, Eq)]
pub enum CallersError {
    /// There isn't one caller for each client.
    Count,
    /// A node may make no move, or more than one may ever make.
    Limit,
    NoMemory,
}

impl From<AllocError> for CallersError {
    ghost from_gives = { λ _ e. e ≡ errors.NoMemory };

    fn from(_: AllocError) -> CallersError {
        CallersError::NoMemory
    }
}

impl fmt::Display for CallersError {
    ghost use Rattle.std.specs.Prelude.{Some};
    ghost use Rattle.lt_live_callers.specs.Texts.{error_text};

    ghost output = { λ error. Some (error_text error) };

    fn fmt<W: fmt::Write>(&self, f: &mut fmt::Formatter<W>) -> fmt::Result {
        f.write_str(match self {
            CallersError::Count => "there isn't one caller for each client",
            CallersError::Limit => "a node may make no move, or more than it ever may",
            CallersError::NoMemory => "no memory",
        })
    }
}

impl Error for CallersError {}
