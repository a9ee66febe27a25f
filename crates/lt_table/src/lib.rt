//! What the desk knows of each node: the modes that it reported, the asks that it owes word of, and what it was told
//! to be frozen; and the unanswered asks of a node's clients in one lock set, with their stamps.
#![tactic(auto)]

mod entry;
mod mask;
mod pending;
mod table;
mod unanswered;

pub use entry::Entry;
pub use pending::Pending;
pub use table::Table;
pub use unanswered::Unanswered;
