//! The runners of a script together: each two look at the rings between them; and its run on threads: all work in rounds,
//! until rest or a cut, and the one list of their moves.
#![tactic(auto)]

mod enabled;
mod fetching;
mod finishing;
mod joining;
mod meeting;
mod outlook;
mod rounds;
mod settling;
mod sharing;
mod stacks;
mod starting;
mod taking;
mod threads;
mod visits;
mod waiting;
mod worker;

pub use enabled::any_enabled;
pub use finishing::finish;
pub use joining::{JoinError, finish_joined, join_scripts};
pub use rounds::{Ended, run_rounds};
pub use sharing::{MAX_WORKERS, crew};
pub use starting::start_crew;
pub use threads::{run_crew, run_on_threads};
pub use waiting::anyone_waits;
