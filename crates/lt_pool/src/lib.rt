//! Items in slots that workers claim, work on and give back, and that come back whole and in order at the end.
#![tactic(auto)]

mod badges;
mod calls;
mod closing;
mod laws;
mod opening;
mod pool;
mod rule;
mod same;
mod steps;
mod view;

pub use laws::{law_numbers, law_one_place, law_refused_word};
pub use pool::{Badge, Pool};
pub use same::Same;
