//! One node: its sets, its clock, and the commands of its clients.
#![tactic(auto)]

mod acting;
mod appending;
mod behind;
mod client;
mod commands;
mod counts;
mod ending;
mod family;
mod forgetting;
mod freeing;
mod limits;
mod long_script;
mod node;
mod own;
mod room;
mod sets;
mod taking;
mod waiting;

pub use commands::Commands;
pub use node::Node;
