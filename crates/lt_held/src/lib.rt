//! The locks that a node's clients hold in one lock set.
#![tactic(auto)]

mod held;
mod laws;
mod rows;

pub use held::Held;
pub use laws::law_rows;
