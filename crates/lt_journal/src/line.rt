ghost use Rattle.std.specs.Prelude.{◌≡◌, [], ◌∷◌, ◌++◌, OnOk};

use lt_modes::{Event, Mode, Step};
use std::alloc::AllocError;

/// What a line of a journal says.
#[derive(Clone, Copy, Debug, PartialEq, Eq)]
pub enum Line {
    /// The first line of a journal of version 2.
    Version2,
    /// The first line of a journal of version 3.
    Version3,
    /// The start of a move.
    Move {
        clock: u64,
        node: u8,
        step: Step,
    },
    /// What a move did.
    Event(Event),
    /// How many locks of a mode a client holds in a set at rest.
    Held {
        client: u16,
        set: u32,
        mode: Mode,
        count: u64,
    },
    /// What a client waits for at rest.
    Waiting {
        client: u16,
        set: u32,
        mode: Mode,
    },
    /// Where the set's token went last, with the epoch of that move.
    Owner {
        set: u32,
        node: u8,
        epoch: u64,
    },
    /// The number of moves of a run that came to rest.
    End {
        count: u64,
    },
    /// The node at which the run was cut.
    Cut {
        node: u8,
    },
    /// A line that has none of the forms.
    Bad,
}

/// Adds a last line.
pub(crate) fn push_line(lines: &mut Vec<Line>, line: Line) -> Result<(), AllocError>
    ensures { OnOk result (lines.new.items ≡ lines.old.items ++ line ∷ []) }
{
    // A vector of lines grows only where the prover meets the type of events, so this takes one apart.
    match line {
        Line::Event(event) => lines.push(Line::Event(event))?,
        other => lines.push(other)?,
    }
    Ok(())
}
