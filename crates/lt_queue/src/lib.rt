//! The desk's queue: asks in the order in which they are served, with room for one of each client.
#![tactic(auto)]

mod queue;

pub use queue::Queue;
