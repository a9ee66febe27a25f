//! Logs and runs: the moves that were made, in order, each with its events.
#![tactic(auto)]

mod heads;
mod logs;
mod run;

pub use logs::merge;
pub use run::{Log, Run};
