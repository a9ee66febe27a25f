//! A node in a process of its own: its letters come in and go out as bytes, which the caller carries between processes.
#![tactic(auto)]

mod bringing;
mod ends;
mod fault;
mod giving;
mod journal;
mod laws;
mod opening;
mod remote;
mod telling;
mod turning;

pub use fault::{Refused, WireFault};
pub use journal::NodeJournal;
pub use laws::law_remote;
pub use remote::Remote;
