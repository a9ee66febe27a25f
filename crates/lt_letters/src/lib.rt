//! Letters as bytes, so that they can be carried between nodes that lie in different processes.
#![tactic(auto)]

mod ends;
mod fault;
mod fields;
mod fitting;
mod laws;
mod lists;
mod reading;
mod writing;

pub use fault::{Fault, ReadError};
pub use fields::{byte_of, u32_of, u64_of};
pub use fitting::letter_fits;
pub use laws::law_letters;
pub use reading::read_letter;
pub use writing::write_letter;
