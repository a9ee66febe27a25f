//! What the programs share: the words of a call, what an answer says of reading and writing, the exit statuses and the line
//! that tells an answer; and the whole call of a program that takes no words, reads an input and writes a text.
#![tactic(auto)]

mod calling;
mod ending;
mod outcome;
mod reading;
mod scripts;
mod status;
mod work;

pub use calling::{answer, program};
pub use ending::{end_by, end_with, words};
pub use outcome::Outcome;
pub use reading::read_bytes;
pub use scripts::read_script;
pub use status::Status;
pub use work::Work;
