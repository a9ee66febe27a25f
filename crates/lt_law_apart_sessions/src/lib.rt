//! What sessions that lie with their nodes in different processes come to together.
#![tactic(auto)]

mod laws;

pub use laws::law_apart_sessions;
