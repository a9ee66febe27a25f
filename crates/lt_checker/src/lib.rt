//! Journals, checked against their script line by line: as their bytes come, in pieces of any size, or once they
//! were read. An input that is a script and a journal is checked as it comes.
#![tactic(auto)]

mod checker;
mod due;
mod error;
mod following;
mod head;
mod input;
mod limits;
mod moves;
mod reader;
mod replaying;
mod rest;
mod short;

pub use checker::Checker;
pub use error::{InputError, ReplayError};
pub use input::{EndedRun, check_input};
pub use limits::MAX_JOURNAL;
pub use replaying::replay;
