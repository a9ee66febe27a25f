//! Whose lines the moves of a run show: a client's own lines stand in moves of its node, and name each client that a
//! move makes wait or lets go on. And to whom a node sends: one whose links and asks name nodes of the script sends
//! letters to other nodes of it alone.
#![tactic(auto)]

mod laws;

pub use laws::{law_old_lines, law_own_lines, law_peers, law_waiting_lines};
