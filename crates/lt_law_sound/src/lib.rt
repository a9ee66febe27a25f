//! What one node can count on, with no world around it: each command of a client that can make one, and each take of
//! a letter that fits, keeps a sound node sound; and a sound node has room for its next move. So a program that drives
//! one node alone never has to ask whether a move has room.
#![tactic(auto)]

mod laws;

pub use laws::{law_sound_has_room, law_sound_kept};
