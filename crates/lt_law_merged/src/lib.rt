//! What the plays of all nodes of a script come to together: a run, and what each node can do and be sent after it.
#![tactic(auto)]

mod laws;

pub use laws::{law_can_move, law_hand_fits, law_joined};
