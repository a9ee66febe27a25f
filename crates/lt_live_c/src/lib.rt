//! Sessions and stations of lt_live for programs that aren't Rattle.
//!
//! Each call takes handles. A handle is a pointer to a box of its own, which the call takes out of the handle and puts
//! back; its ghost field says what is in the box, or that there is none.
#![tactic(auto)]

mod boxes;
mod calls;
mod carrying;
mod code;
mod content;
mod counting;
mod doing;
mod faults;
mod handle;
mod journal;
mod journals;
mod key_sets;
mod keys;
mod laws;
mod limits;
mod new_sets;
mod node;
mod node_opening;
mod nodes;
mod parts;
mod service;
mod services;
mod serving;
mod sessions;
mod taking;
mod telling;
mod texts;
mod view_laws;
mod viewing;
mod views;
mod wire_code;

pub use laws::law_c_told;
pub use view_laws::law_view_told;
