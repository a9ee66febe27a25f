//! Laws of nodes that lie each in a process of its own: whoever carries their letters, if each took in first ones of
//! those that were given out for it, they have made one run together. Over plain data, one fact of each node.
#![tactic(auto)]

mod laws;

pub use laws::law_apart;
