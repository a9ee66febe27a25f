//! Journals: the text of a run, written and read.
//!
//! A line ends with a line feed. Its words have one space between them, and numbers have no zero in
//! front. Each move has its line, and after it a line for each of its events, in order:
//!
//! | line | event |
//! |---|---|
//! | `move CLOCK NODE act CLIENT` | the node makes a command of the client |
//! | `move CLOCK NODE take FROM` | the node takes a letter of another node |
//! | `grant CLIENT SET MODE` | a lock is granted |
//! | `wait CLIENT SET MODE` | the client waits for a lock of this mode |
//! | `try CLIENT SET MODE true` or `false` | a `try` got its lock, or it didn't |
//! | `unlock CLIENT SET MODE` | a lock is given up |
//! | `not_held CLIENT SET MODE` | the lock to give up isn't held |
//! | `change CLIENT SET MODE MODE` | a lock of the first mode becomes one of the second |
//! | `drop CLIENT CLIENT SET COUNT` | the first client drops the locks of the second in the set's family |
//! | `busy CLIENT CLIENT SET` | the second client waits, so none are dropped |
//! | `withdraw CLIENT CLIENT SET true` or `false` | what the second client waited for is given up, or it didn't wait |
//! | `withdrawn CLIENT SET MODE` | the client waited for this, and waits no more |
//! | `void CLIENT SET MODE` | an ask that was given up is answered, and nothing is granted |
//! | `withheld CLIENT SET MODE` | the client can't ask while one that it gave up is unanswered |
//! | `copy SET TO CLIENT MODE` | a copy of the token goes to a node, for this client |
//! | `freeze SET TO NUMBER MODES` | a node is told which modes are frozen: their words, or `none` |
//! | `token SET TO EPOCH` | the token goes to a node |
//!
//! The closing lines tell what the events came to, or where the run was cut:
//!
//! | line | when |
//! |---|---|
//! | `held CLIENT SET MODE COUNT` | for each count above 0, by client, set and mode |
//! | `waiting CLIENT SET MODE` | for each client that waits, in order |
//! | `owner SET NODE EPOCH` | for each set in order, from its last token line, or `0 0` |
//! | `end COUNT` | last, with the number of moves |
//! | `cut NODE` | in place of the others, for a run that was cut |
//!
//! The journal of a script of version 2 has the line `version 2` before all others, and that of one of version 3 the
//! line `version 3`.
//!
//! Names are those of the script, numbers are below 2^64, and node numbers are below the script's number of
//! nodes. A line that has none of these forms is bad, and so is `version 3`, `withdraw`, `withdrawn`, `void` or
//! `withheld` in the journal of a script of another version than 3. An input may hold a script and its
//! journal, with the line `journal` between them.
#![tactic(auto)]

mod closing;
mod entries;
mod events;
mod grammar;
mod journal;
mod laws;
mod line;
mod line_words;
mod meaning;
mod moves;
mod names;
mod padded;
mod page;
mod reading;
mod splitting;
mod text;
mod wording;

pub use closing::closing_lines;
pub use entries::event_line;
pub use events::shown_event;
pub use grammar::read_line;
pub use journal::{write, write_closing};
pub use laws::law_read_line;
pub use line::Line;
pub use line_words::{write_line, write_words};
pub use reading::{Journal, read};
pub use splitting::{Parts, is_journal_line, split, split_from};
pub use text::Text;
pub use wording::Wording;
