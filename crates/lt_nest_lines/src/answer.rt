ghost use Rattle.std.specs.Prelude.{◌≡◌, ◌≢◌, ◌↔◌, [], IsTrue};
ghost use Rattle.lt_nest_lines.specs.Answers.{status_line};

use lt_call::{Outcome, Status};
use std::fmt;

/// How it ended.
#[derive(Clone, Copy, Debug, PartialEq, Eq)]
pub enum Answer {
    /// All was read and written.
    Done,
    /// There are words, and the program takes none.
    Usage,
    /// The first line that is refused; lines count from 1.
    Refused { line: u32 },
    /// The input is longer than it may be.
    TooLong,
    ReadFault,
    WriteFault,
    NoMemory,
}

impl Answer {
    /// Whether the program writes a line on standard error.
    pub fn is_told(&self) -> bool
        ensures { IsTrue result ↔ (status_line self.now ≢ []) }
    {
        self.outcome().has_line()
    }
}

impl Status for Answer {
    ghost use Rattle.lt_nest_lines.specs.Answers.{outcome_of};

    ghost outcome = { outcome_of };

    fn outcome(&self) -> Outcome {
        match self {
            Answer::Done => Outcome::Done,
            Answer::Usage => Outcome::Usage,
            Answer::Refused { .. } => Outcome::Refused,
            Answer::TooLong => Outcome::TooLong,
            Answer::ReadFault => Outcome::ReadFault,
            Answer::WriteFault => Outcome::WriteFault,
            Answer::NoMemory => Outcome::NoMemory,
        }
    }

    fn of(plain: Outcome) -> Answer {
        match plain {
            Outcome::Done => Answer::Done,
            Outcome::Usage => Answer::Usage,
            Outcome::TooLong => Answer::TooLong,
            Outcome::ReadFault => Answer::ReadFault,
            Outcome::WriteFault => Answer::WriteFault,
            Outcome::NoMemory => Answer::NoMemory,
            _ => unreachable!(),
        }
    }
}

/// The line that the program writes on standard error, without its line end; empty where it writes none.
impl fmt::Display for Answer {
    ghost use Rattle.std.specs.Prelude.{Some};
    ghost use Rattle.lt_nest_lines.specs.Answers.{status_line};

    ghost output = { λ answer. Some (status_line answer) };

    fn fmt<W: fmt::Write>(&self, f: &mut fmt::Formatter<W>) -> fmt::Result {
        match self {
            Answer::Done => Ok(()),
            Answer::Usage => f.write_str("locknest: usage: locknest"),
            Answer::Refused { line } => write!(f, "locknest: line {line}"),
            other => {
                let outcome = other.outcome();
                write!(f, "locknest: {outcome}")
            }
        }
    }
}
