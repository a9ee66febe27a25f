//! What a program that locks names: scripts and their sets, commands and modes, callers and their replies, streams, and
//! the check of a journal.
//!
//! Each of these has its contract in the crate that it comes from.
#![tactic(auto)]

pub use lt_checker::check_input;
pub use lt_io::{ReaderSource, Sink, Source, WriterSink, read_all, write_all};
pub use lt_live::Reply;
pub use lt_live_callers::{Called, Caller, Served, serve_callers};
pub use lt_modes::{Command, Mode};
pub use lt_script::{Script, SetByName, read};
