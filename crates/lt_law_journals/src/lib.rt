//! Which lines are the journal of a run of a script, and which line is the first bad one. What is written of a run is
//! read back, and what a journal ends with is what the nodes know.
#![tactic(auto)]

mod laws;

pub use laws::{
    law_accepts, law_answers, law_beginning, law_bytes, law_closing_lines, law_continues,
    law_first, law_input, law_means, law_one_run, law_pieces, law_read_text, law_rows, law_said,
    law_settled,
};
