//! Lines that order nested transactions, and what is written of them; and the same at the command line, where the lines are
//! read and the text is written.
#![tactic(auto)]

mod adding;
mod answer;
mod arguments;
mod closing;
mod form;
mod input;
mod laws;
mod limits;
mod name;
mod names;
mod naming;
mod nested;
mod order;
mod play;
mod reading;
mod serving;
mod words;
mod writing;

pub use answer::Answer;
pub use arguments::program;
pub use input::Input;
pub use laws::law_rows;
pub use limits::{MAX_INPUT, MAX_LINES, MAX_SETS, MAX_TRANSACTIONS};
pub use order::Order;
pub use reading::{ReadError, read};
pub use serving::serve;
pub use writing::report;
