//! The account and the news of a node, what can happen to them, and the laws that they stay kept; rules of a node stated a second way.
#![tactic(auto)]

mod laws;

pub use laws::{law_account, law_account_facts, law_accounts, law_news, law_rules};
