//! Callers: values that are asked for their next command and told its reply, while the library keeps stations and
//! sessions.
#![tactic(auto)]

mod caller;
mod desk;
mod ending;
mod error;
mod opening;
mod served;
mod serving;
mod taking;
mod turning;

pub use caller::Caller;
pub use ending::LiveEnding;
pub use error::CallersError;
pub use served::{Called, Served};
pub use serving::serve_callers;
pub use turning::TIMES_A_ROUND;
