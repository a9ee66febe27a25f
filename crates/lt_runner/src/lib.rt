//! What runs a node on a thread: its state, its mail and its log, and its moves one after the other.
#![tactic(auto)]

mod appending;
mod at_once;
mod choice;
mod forgetting;
mod gate;
mod making;
mod meeting;
mod moving;
mod parts;
mod readying;
mod runner;
mod same;
mod telling;
mod turning;

pub use at_once::all_at_once;
pub use choice::Choice;
pub use gate::{Gate, Open};
pub use parts::Parts;
pub use runner::Runner;
pub use turning::{Found, Turned, Worked};
