//! One lock set at one node: its locks, its links, its unanswered asks, what waits for the token, and the desk.
#![tactic(auto)]

mod act;
mod finish;
mod fits;
mod freezing;
mod granting;
mod handing;
mod keeping;
mod laws;
mod marks;
mod numbers;
mod one_set;
mod routing;
mod serving;
mod set_command;
mod taking;
mod telling;
mod waiting;
mod withdrawing;

pub use fits::LAST_CLOCK;
pub use laws::{law_room_to_move, law_room_to_send};
pub use numbers::Numbers;
pub use one_set::Core;
pub use set_command::{Answer, SetCommand};
