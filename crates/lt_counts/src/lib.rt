//! How many locks of each set a node granted, how many clients waited, and so on, by the lines of its moves.
#![tactic(auto)]

mod counted;
mod counting;
mod laws;

pub use counted::Counted;
pub use counting::count_on;
pub use laws::law_counts;
