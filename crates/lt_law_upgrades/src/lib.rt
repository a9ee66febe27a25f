//! Scripts whose clients ask for sets in order and change locks that exclude themselves, as `upgrade` to `write`: at
//! rest nobody waits, and nothing is held.
#![tactic(auto)]

mod laws;

pub use laws::{law_upgrade_rows, law_upgrades};
