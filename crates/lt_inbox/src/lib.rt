//! The letters that are on their way between the nodes of one thread, with one room for all.
#![tactic(auto)]

mod counting;
mod inboxes;
mod node_set;
mod pairs;
mod sent;
mod takes;

pub use inboxes::Inboxes;
pub use takes::Take;
