//! Scripts that are made from a number, and the numbers drawn for them.
#![tactic(auto)]

mod draws;
mod group;
mod laws;
mod making;
mod sizes;

pub use draws::Draws;
pub use laws::law_generated;
pub use making::script;
pub use sizes::can_make;
