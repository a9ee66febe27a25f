//! Which scripts are ordered: each client asks for sets in rising order, changes no mode, drops only its own locks, and
//! releases all that it may hold.
#![tactic(auto)]

mod lock;
mod locks;
mod order;

pub use order::{first_bad, ordered};
