//! What the service promises of every run of every script.
#![tactic(auto)]

mod laws;

pub use laws::{law_promised, law_run};
