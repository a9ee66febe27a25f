//! What the texts of nodes come to together that lay each in a process of its own: the text of their one run. Over
//! plain data.
#![tactic(auto)]

mod laws;

pub use laws::law_join;
