//! Players that take turns: which of them can act, and which one is first.
#![tactic(auto)]

mod places;
mod tree;
mod turns;

pub use turns::Turns;
