ghost use Rattle.std.specs.Prelude.{◌≡◌, ◌≢◌, ◌↔◌, [], IsTrue};
ghost use Rattle.lt_serve.specs.Status.{status_text};

use lt_call::{Outcome, Status as CallStatus};
use lt_checker::InputError;
use lt_script::ScriptFault;
use lt_spec::Ending;
use std::fmt;

/// How a command ended.
#[derive(Clone, Copy, Debug, PartialEq, Eq)]
pub enum Status {
    /// All was done, and at the end nobody waits.
    Done,
    /// The run ended at rest with a client waiting.
    Stuck,
    /// The words are no command.
    Usage,
    /// The script has a fault.
    Refused(ScriptFault),
    /// The input is longer than it may be.
    TooLong,
    ReadFault,
    WriteFault,
    NoMemory,
    /// The node has made as many moves as it may, and has a further one.
    Cut { node: u8 },
    /// The journal doesn't match its script from this line of the input on.
    BadJournal { line: u32 },
}

impl Status {
    ghost use Rattle.lt_serve.specs.Endings.{cut_of};

    // The node at which the run was cut.
    pub(crate) fn cut(&self) -> Option<u8>
        ensures { result ≡ cut_of self.now }
    {
        match self {
            Status::Cut { node } => Some(*node),
            _ => None,
        }
    }

    /// Whether the program writes a line on standard error.
    pub fn has_line(&self) -> bool
        ensures { IsTrue result ↔ (status_text self.now ≢ []) }
    {
        self.outcome().has_line()
    }
}

impl CallStatus for Status {
    ghost use Rattle.lt_serve.specs.Status.{outcome_of};

    ghost outcome = { outcome_of };

    fn outcome(&self) -> Outcome {
        match self {
            Status::Done => Outcome::Done,
            Status::Stuck => Outcome::Stuck,
            Status::Usage => Outcome::Usage,
            Status::Refused(_) => Outcome::Refused,
            Status::TooLong => Outcome::TooLong,
            Status::ReadFault => Outcome::ReadFault,
            Status::WriteFault => Outcome::WriteFault,
            Status::NoMemory => Outcome::NoMemory,
            Status::Cut { .. } => Outcome::Cut,
            Status::BadJournal { .. } => Outcome::BadJournal,
        }
    }

    fn of(plain: Outcome) -> Status {
        match plain {
            Outcome::Done => Status::Done,
            Outcome::Usage => Status::Usage,
            Outcome::TooLong => Status::TooLong,
            Outcome::ReadFault => Status::ReadFault,
            Outcome::WriteFault => Status::WriteFault,
            Outcome::NoMemory => Status::NoMemory,
            _ => unreachable!(),
        }
    }
}

impl From<Ending> for Status {
    ghost use Rattle.lt_serve.specs.Endings.{status_of_end};

    ghost from_gives = { λ ending status. status ≡ status_of_end ending };

    fn from(ending: Ending) -> Status {
        match ending {
            Ending::Done => Status::Done,
            Ending::Stuck => Status::Stuck,
            Ending::Cut { node } => Status::Cut { node },
        }
    }
}

impl From<InputError> for Status {
    ghost use Rattle.lt_serve.specs.Causes.{status_of_input};

    ghost from_gives = { λ error status. status ≡ status_of_input error };

    fn from(error: InputError) -> Status {
        match error {
            InputError::ReadFault => Status::ReadFault,
            InputError::TooLong => Status::TooLong,
            InputError::NoMemory => Status::NoMemory,
            InputError::Refused(fault) => Status::Refused(fault),
            InputError::BadJournal { line } => Status::BadJournal { line },
        }
    }
}

/// The line that the program writes on standard error, without its line end; empty where it writes none.
impl fmt::Display for Status {
    ghost use Rattle.std.specs.Prelude.{Some};
    ghost use Rattle.lt_serve.specs.Status.{status_text};

    ghost output = { λ status. Some (status_text status) };

    fn fmt<W: fmt::Write>(&self, f: &mut fmt::Formatter<W>) -> fmt::Result {
        match self {
            Status::Done | Status::Stuck => Ok(()),
            Status::Usage => f.write_str(USAGE),
            Status::Refused(fault) => write!(f, "lockrun: {fault}"),
            Status::Cut { node } => write!(f, "lockrun: cut at node {node}"),
            Status::BadJournal { line } => write!(f, "lockrun: line {line}: journal"),
            other => {
                let outcome = other.outcome();
                write!(f, "lockrun: {outcome}")
            }
        }
    }
}

const USAGE: &str =
    "lockrun: usage: run | sim first | sim SEED | check | make NODES CLIENTS COMMANDS SEED | soak SEED | order";
