//! The top call of the lock service: words and a script come in, a journal goes out.
#![tactic(auto)]

mod arguments;
mod checking;
mod laws;
mod limits;
mod made;
mod making;
mod ordering;
mod reading;
mod schedule;
mod serving;
mod simulated;
mod simulation;
mod soaking;
mod status;
mod threaded;

pub use arguments::program;
pub use laws::{law_fixed_order, law_literals, law_stuck};
pub use limits::MAX_INPUT;
pub use lt_checker::MAX_JOURNAL;
pub use lt_mail::MAX_CAPACITY;
pub use lt_runner::{Gate, Open};
pub use serving::{Served, Setup, USUAL, serve, serve_with};
pub use status::Status;
