ghost use Rattle.std.specs.Prelude.{◌≡◌, ◌≢◌, ◌↔◌, [], IsTrue};
ghost use Rattle.lt_waits.specs.Answers.{answer_text};

use lt_call::{Outcome, Status};
use lt_checker::InputError;
use lt_script::ScriptFault;
use std::fmt;

/// How it ended.
#[derive(Clone, Copy, Debug, PartialEq, Eq)]
pub enum Answer {
    /// The report was written.
    Done,
    /// There are words, and the program takes none.
    Usage,
    /// The script has a fault.
    Refused(ScriptFault),
    /// The input is longer than it may be.
    TooLong,
    ReadFault,
    WriteFault,
    NoMemory,
    /// The journal doesn't match its script from this line of the input on.
    BadJournal { line: u32 },
}

impl Answer {
    /// Whether the program writes a line on standard error.
    pub fn is_told(&self) -> bool
        ensures { IsTrue result ↔ (answer_text self.now ≢ []) }
    {
        self.outcome().has_line()
    }
}

impl Status for Answer {
    ghost use Rattle.lt_waits.specs.Answers.{outcome_of};

    ghost outcome = { outcome_of };

    fn outcome(&self) -> Outcome {
        match self {
            Answer::Done => Outcome::Done,
            Answer::Usage => Outcome::Usage,
            Answer::Refused(_) => Outcome::Refused,
            Answer::TooLong => Outcome::TooLong,
            Answer::ReadFault => Outcome::ReadFault,
            Answer::WriteFault => Outcome::WriteFault,
            Answer::NoMemory => Outcome::NoMemory,
            Answer::BadJournal { .. } => Outcome::BadJournal,
        }
    }

    fn of(plain: Outcome) -> Answer {
        match plain {
            Outcome::Done => Answer::Done,
            Outcome::Usage => Answer::Usage,
            Outcome::TooLong => Answer::TooLong,
            Outcome::ReadFault => Answer::ReadFault,
            Outcome::WriteFault => Answer::WriteFault,
            Outcome::NoMemory => Answer::NoMemory,
            _ => unreachable!(),
        }
    }
}

impl From<InputError> for Answer {
    ghost use Rattle.lt_waits.specs.Answers.{answer_of_input};

    ghost from_gives = { λ error answer. answer ≡ answer_of_input error };

    fn from(error: InputError) -> Answer {
        match error {
            InputError::ReadFault => Answer::ReadFault,
            InputError::TooLong => Answer::TooLong,
            InputError::NoMemory => Answer::NoMemory,
            InputError::Refused(fault) => Answer::Refused(fault),
            InputError::BadJournal { line } => Answer::BadJournal { line },
        }
    }
}

/// The line that the program writes on standard error, without its line end; empty where it writes none.
impl fmt::Display for Answer {
    ghost use Rattle.std.specs.Prelude.{Some};
    ghost use Rattle.lt_waits.specs.Answers.{answer_text};

    ghost output = { λ answer. Some (answer_text answer) };

    fn fmt<W: fmt::Write>(&self, f: &mut fmt::Formatter<W>) -> fmt::Result {
        match self {
            Answer::Done => Ok(()),
            Answer::Usage => f.write_str("lockwaits: usage: lockwaits"),
            Answer::Refused(fault) => write!(f, "lockwaits: {fault}"),
            Answer::BadJournal { line } => write!(f, "lockwaits: line {line}: journal"),
            other => {
                let outcome = other.outcome();
                write!(f, "lockwaits: {outcome}")
            }
        }
    }
}
