//! Sets by keys: at which set of a service a key is whose program knows no names of sets.
#![tactic(auto)]

mod keys;
mod laws;
mod names;

pub use keys::key_set;
pub use laws::law_key_sets;
pub use names::key_name;

#[cfg(test)]
mod tests;
