ghost use Rattle.std.specs.Prelude.{◌≡◌};
ghost use Rattle.lt_call.specs.Outcomes.{exit_code, has_line, outcome_of_failure};

use lt_io::ReadFailure;
use std::fmt;

/// What an answer says of reading and of writing. Statuses of programs tell more: each has an outcome.
#[derive(Clone, Copy, Debug, PartialEq, Eq)]
pub enum Outcome {
    /// All was read and written; of a run, nobody waits at its end.
    Done,
    /// The words are none that the program takes.
    Usage,
    /// What was read is refused, as a script with a fault.
    Refused,
    /// The input is longer than it may be.
    TooLong,
    /// All was read and written; the run ended at rest with a client waiting.
    Stuck,
    ReadFault,
    WriteFault,
    NoMemory,
    /// All was read and written; the run was cut.
    Cut,
    /// The journal that was read isn't one of its script.
    BadJournal,
    /// In the script that was read a client has more commands than its session may submit.
    Share,
}

impl Outcome {
    /// The exit status of each program.
    pub fn code(self) -> u8
        ensures { result ≡ exit_code self }
    {
        match self {
            Outcome::Done => 0,
            Outcome::Usage => 1,
            Outcome::Refused | Outcome::TooLong => 2,
            Outcome::Stuck => 3,
            Outcome::ReadFault => 4,
            Outcome::WriteFault => 5,
            Outcome::NoMemory => 6,
            Outcome::Cut => 7,
            Outcome::BadJournal => 8,
            Outcome::Share => 10,
        }
    }

    /// Whether a line on standard error tells it.
    pub fn has_line(self) -> bool
        ensures { result ≡ has_line self }
    {
        !matches!(self, Outcome::Done | Outcome::Stuck)
    }
}

/// The words that tell it, where they are the same in each program; else nothing.
impl fmt::Display for Outcome {
    ghost use Rattle.std.specs.Prelude.{Some};
    ghost use Rattle.lt_call.specs.Outcomes.{fixed_text};

    ghost output = { λ outcome. Some (fixed_text outcome) };

    fn fmt<W: fmt::Write>(&self, f: &mut fmt::Formatter<W>) -> fmt::Result {
        match self {
            Outcome::TooLong => f.write_str("input too long"),
            Outcome::ReadFault => f.write_str("read fault"),
            Outcome::WriteFault => f.write_str("write fault"),
            Outcome::NoMemory => f.write_str("no memory"),
            _ => Ok(()),
        }
    }
}

impl From<ReadFailure> for Outcome {
    ghost from_gives = { λ failure outcome. outcome ≡ outcome_of_failure failure };

    fn from(failure: ReadFailure) -> Outcome {
        match failure {
            ReadFailure::Memory => Outcome::NoMemory,
            ReadFailure::Failed => Outcome::ReadFault,
            ReadFailure::TooLong => Outcome::TooLong,
        }
    }
}
