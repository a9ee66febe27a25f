//! What the answers of the programs say of any input: each field of each top record in words of what was read, written
//! and run, for any script, version, length, seed, source and sink.
#![tactic(auto)]

mod nests;
mod runs;

pub use nests::law_any_nest;
pub use runs::law_any_run;
