//! What is promised of a run, spelled out for any script, moment, client, set and node.
#![tactic(auto)]

mod laws;

pub use laws::{law_promise_opened, law_waits_opened};
