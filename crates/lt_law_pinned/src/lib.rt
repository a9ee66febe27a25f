//! What definitions say of small inputs, in literals that the proof computes: what the promise of a run rules out,
//! what a script and its journal are, what each field of an answer of the top call says, and what each answer to
//! small inputs says.
#![tactic(auto)]

mod answers;
mod callers;
mod calls;
mod ends;
mod laws;
mod live;
mod why;

pub use answers::law_answers;
pub use callers::law_callers_told;
pub use calls::{law_nests_told, law_reports_told};
pub use ends::law_ends_told;
pub use laws::{law_excluded, law_texts, law_told, law_worlds_excluded};
pub use live::law_live_told;
pub use why::law_why_told;
