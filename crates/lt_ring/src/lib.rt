//! Who waits for whom among the clients of some nodes of one service, by what each of these nodes has; and a ring of
//! them.
#![tactic(auto)]

mod edges;
mod nodes;
mod rings;

pub use nodes::Nodes;
