//! The top call on live sessions: a script comes in, callers submit its commands and poll for replies, a journal goes out.
#![tactic(auto)]

mod arguments;
mod benches;
mod callers;
mod calling;
mod completing;
mod first;
mod limits;
mod live;
mod opening;
mod over;
mod reading;
mod rounds;
mod running;
mod served;
mod serving;
mod status;
mod telling;

pub use arguments::program;
pub use limits::MAX_INPUT;
pub use lt_runner::{Gate, Open};
pub use served::Served;
pub use serving::serve;
pub use status::Status;
