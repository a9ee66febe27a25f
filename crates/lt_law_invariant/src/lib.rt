//! The whole invariant of the world: every move keeps the accounts and the news of each set, and all else. What holds
//! of a kept set at rest; and that what nodes keep in runs stays within the limits of scripts.
#![tactic(auto)]

mod laws;

pub use laws::{
    law_held_up, law_in_turn, law_kept_in_runs, law_ledger_effects, law_ledgers, law_locks,
    law_rest, law_step, law_within,
};
