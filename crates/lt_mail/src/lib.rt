//! Letters on their way between the threads of nodes: a ring for each ordered pair, with an outbox before it.
#![tactic(auto)]

mod both_ends;
mod in_lanes;
mod lane;
mod lanes;
mod looking;
mod mail;
mod opening;
mod passing;
mod room;
mod star;
mod telling;
mod waiting;

pub use both_ends::{beside, beside_at};
pub use mail::Mail;
pub use opening::{MAX_CAPACITY, open};
pub use star::open_star;
