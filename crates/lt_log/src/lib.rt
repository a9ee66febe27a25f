//! A node's log whose moves can be forgotten: contracts go on speaking of all of them.
#![tactic(auto)]

mod history;
mod long_log;

pub use history::History;
pub use long_log::LongLog;
