//! What the clients of a node hold and wait for, as its state has it: for a listing of locks.
#![tactic(auto)]

mod asked;
mod held;
mod laws;

pub use asked::{queues_before, wait_of};
pub use held::{count_held, first_held};
pub use laws::law_view;
