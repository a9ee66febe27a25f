//! The world invariant, and the laws over the moves and the runs of the rules.
#![tactic(auto)]

mod laws;
mod rule_laws;
mod untouched;

pub use laws::{
    law_clocks, law_exact_try, law_homes, law_lines, law_moment, law_one_place, law_one_token,
    law_other_sets, law_paths, law_served, law_start, law_timed,
};
pub use lt_law_accounts::{law_account, law_account_facts, law_accounts, law_news};
pub use rule_laws::{law_account_rules, law_news_rules, law_on_way};
pub use untouched::law_untouched;
