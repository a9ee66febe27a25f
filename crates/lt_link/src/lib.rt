//! Where a node believes the token of a lock set to be, and which way it sends asks and tells.
#![tactic(auto)]

mod kind;
mod links;

pub use kind::{Kind, Route};
pub use links::Links;
