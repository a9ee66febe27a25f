//! The text layer of scripts and journals: lines, the words and fields of a line, and decimal numbers.
#![tactic(auto)]

mod cut;
mod digits;
mod laws;

pub use cut::{is, next_field, next_line, next_word, trim_return};
pub use digits::{are_digits, exact_number, number, push_number};
pub use laws::{law_exact_number, law_fields, law_lines, law_number, law_words};
