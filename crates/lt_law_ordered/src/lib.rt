//! Scripts whose clients ask for sets in order: at rest nobody waits, and nothing is held.
#![tactic(auto)]

mod laws;

pub use laws::{law_order_rows, law_ordered};
