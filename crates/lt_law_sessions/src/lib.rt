//! What clients hold still, by what was submitted and polled at their sessions, and that it doesn't conflict.
#![tactic(auto)]

mod laws;

pub use laws::{law_held_still, law_sessions_exclude};
