//! The locks held by event lines, counted: how many locks each client holds, what each client waits for, and where
//! the token of each set went last. And what a run came to: how many locks are held at its end, and how many clients
//! wait.
#![tactic(auto)]

mod families;
mod holding;
mod locks;
mod summary;
mod table;
mod tally;
mod waiting;

pub use families::is_related;
pub use holding::Holding;
pub use summary::Summary;
pub use tally::{Tally, tally_of};
