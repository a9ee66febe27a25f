//! That each command of a client gets one reply, and that replies come in the order of commands.
#![tactic(auto)]

mod laws;

pub use laws::{law_replies, law_reply_rows};
