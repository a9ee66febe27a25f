//! What the bounds on the moves of a run come to, by how many commands, sets and nodes the script has.
#![tactic(auto)]

mod laws;

pub use laws::law_most_moves;
