//! The world on one thread: its nodes and the letters on their way, which moves are enabled, in which order, and what each
//! of them makes.
#![tactic(auto)]

mod choice;
mod network;
mod recording;
mod reserved;
mod world;

pub use choice::Choice;
pub use lt_spec::MAX_MOVES;
pub use world::{Ready, World};
