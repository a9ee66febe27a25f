ghost use Rattle.std.specs.Prelude.{◌≡◌};
ghost use Rattle.lt_script.specs.Fault.{number_of};

use std::error::Error;
use std::fmt;

/// What is wrong with a line of a script, in the order in which faults of one line are told.
#[derive(Clone, Copy, Debug, PartialEq, Eq)]
pub enum Fault {
    /// A byte that is neither a tab nor printable ASCII.
    Bytes,
    /// More than 200 bytes.
    Length,
    /// None of the forms.
    Form,
    /// A number word that is no number in range.
    Number,
    /// The line `nodes` is missing before it, or stands there again.
    Nodes,
    /// A word that is no name is declared.
    Name,
    /// A name that was declared before.
    Repeated,
    /// A set or a client that wasn't declared before.
    Unknown,
    /// More nodes, sets, clients or commands than a script may have.
    Limit,
    /// A word that is no mode.
    Mode,
    /// A `drop` or a `withdraw` of a client of another node.
    Node,
}

impl Fault {
    /// The fault's number, from 1.
    pub fn number(self) -> u8
        ensures { result ≡ number_of self }
    {
        match self {
            Fault::Bytes => 1,
            Fault::Length => 2,
            Fault::Form => 3,
            Fault::Number => 4,
            Fault::Nodes => 5,
            Fault::Name => 6,
            Fault::Repeated => 7,
            Fault::Unknown => 8,
            Fault::Limit => 9,
            Fault::Mode => 10,
            Fault::Node => 11,
        }
    }
}

/// The first fault of a script; lines count from 1.
#[derive(Clone, Copy, Debug, PartialEq, Eq)]
pub struct ScriptFault {
    pub line: u32,
    pub fault: Fault,
}

impl fmt::Display for ScriptFault {
    ghost use Rattle.std.specs.Prelude.{Some};
    ghost use Rattle.lt_script.specs.Fault.{text_of_fault};

    ghost output = { λ found. Some (text_of_fault found) };

    fn fmt<W: fmt::Write>(&self, f: &mut fmt::Formatter<W>) -> fmt::Result {
        let number = self.fault.number();
        write!(f, "line {}: S{number}", self.line)
    }
}

impl Error for ScriptFault {}

/// Why a script is not read.
#[derive(Clone, Copy, Debug, PartialEq, Eq)]
pub enum ReadError {
    Memory,
    Fault(ScriptFault),
}

impl fmt::Display for ReadError {
    ghost use Rattle.std.specs.Prelude.{Some};
    ghost use Rattle.lt_script.specs.Fault.{text_of_error};

    ghost output = { λ error. Some (text_of_error error) };

    fn fmt<W: fmt::Write>(&self, f: &mut fmt::Formatter<W>) -> fmt::Result {
        match self {
            ReadError::Memory => f.write_str("no memory"),
            ReadError::Fault(found) => write!(f, "{found}"),
        }
    }
}

impl Error for ReadError {}
