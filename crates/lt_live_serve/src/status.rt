ghost use Rattle.std.specs.Prelude.{◌≡◌, ◌≢◌, ◌↔◌, [], IsTrue};
ghost use Rattle.lt_live_serve.specs.Status.{line_of_status, cut_node};

use lt_call::{Outcome, Status as CallStatus};
use lt_script::ScriptFault;
use lt_spec::Ending;
use std::fmt;

/// How it ended.
#[derive(Clone, Copy, Debug, PartialEq, Eq)]
pub enum Status {
    /// All was done, and at the end nobody waits.
    Done,
    /// The run ended at rest with a client waiting.
    Stuck,
    /// There are words, and the program takes none.
    Usage,
    /// The script has a fault.
    Refused(ScriptFault),
    /// The input is longer than it may be.
    TooLong,
    ReadFault,
    WriteFault,
    NoMemory,
    /// The node has made as many moves as it may, and has a further one.
    Cut { node: u8 },
    /// The client has more commands than its session may submit.
    Share { client: u16 },
}

impl Status {
    /// Whether the program writes a line on standard error.
    pub fn has_line(&self) -> bool
        ensures { IsTrue result ↔ (line_of_status self.now ≢ []) }
    {
        self.outcome().has_line()
    }
}

impl CallStatus for Status {
    ghost use Rattle.lt_live_serve.specs.Status.{outcome_of};

    ghost outcome = { outcome_of };

    fn outcome(&self) -> Outcome {
        match self {
            Status::Done => Outcome::Done,
            Status::Stuck => Outcome::Stuck,
            Status::Usage => Outcome::Usage,
            Status::Refused(_) => Outcome::Refused,
            Status::TooLong => Outcome::TooLong,
            Status::ReadFault => Outcome::ReadFault,
            Status::WriteFault => Outcome::WriteFault,
            Status::NoMemory => Outcome::NoMemory,
            Status::Cut { .. } => Outcome::Cut,
            Status::Share { .. } => Outcome::Share,
        }
    }

    fn of(plain: Outcome) -> Status {
        match plain {
            Outcome::Done => Status::Done,
            Outcome::Usage => Status::Usage,
            Outcome::TooLong => Status::TooLong,
            Outcome::ReadFault => Status::ReadFault,
            Outcome::WriteFault => Status::WriteFault,
            Outcome::NoMemory => Status::NoMemory,
            _ => unreachable!(),
        }
    }
}

impl From<Ending> for Status {
    ghost use Rattle.lt_live_serve.specs.Status.{status_by_end};

    ghost from_gives = { λ ending status. status ≡ status_by_end ending };

    fn from(ending: Ending) -> Status {
        match ending {
            Ending::Done => Status::Done,
            Ending::Stuck => Status::Stuck,
            Ending::Cut { node } => Status::Cut { node },
        }
    }
}

/// The line that the program writes on standard error, without its line end; empty where it writes none.
impl fmt::Display for Status {
    ghost use Rattle.std.specs.Prelude.{Some};
    ghost use Rattle.lt_live_serve.specs.Status.{line_of_status};

    ghost output = { λ status. Some (line_of_status status) };

    fn fmt<W: fmt::Write>(&self, f: &mut fmt::Formatter<W>) -> fmt::Result {
        match self {
            Status::Done | Status::Stuck => Ok(()),
            Status::Usage => f.write_str("locklive: usage: locklive"),
            Status::Refused(fault) => write!(f, "locklive: {fault}"),
            Status::Cut { node } => write!(f, "locklive: cut at node {node}"),
            Status::Share { client } => {
                write!(f, "locklive: too many commands of client {client}")
            }
            other => {
                let outcome = other.outcome();
                write!(f, "locklive: {outcome}")
            }
        }
    }
}

/// The node at which the run was cut.
pub(crate) fn cut_node(ending: Ending) -> Option<u8>
    ensures { result ≡ cut_node ending }
{
    match ending {
        Ending::Cut { node } => Some(node),
        _ => None,
    }
}
