//! What every crate of the lock service speaks of: modes, sets of modes, stamps, asks, commands, moves and events.
//!
//! The definitions of the rules on plain data, which contracts cite, stand in `specs/`.
#![tactic(auto)]

mod ask;
mod command;
mod counts;
mod event;
mod laws;
mod mode;
mod mode_set;
mod moves;
mod parts;
mod stamp;

pub use ask::Ask;
pub use command::Command;
pub use counts::{ModeCounts, place};
pub use event::Event;
pub use laws::{law_five_modes, law_modes};
pub use mode::{MODES, Mode};
pub use mode_set::ModeSet;
pub use moves::{Move, Step};
pub use parts::{Hoped, Link, Owed, Row};
pub use stamp::Stamp;
