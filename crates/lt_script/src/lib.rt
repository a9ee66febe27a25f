//! Scripts: the nodes, the lock sets, the clients, and the commands that the clients make.
#![tactic(auto)]

mod cutting;
mod declarations;
mod fault;
mod form;
mod index;
mod later_lines;
mod laws;
mod limits;
mod line;
mod name;
mod one_mode;
mod plain;
mod printing;
mod reading;
mod script;
mod sets;

pub use cutting::line_end;
pub use fault::{Fault, ReadError, ScriptFault};
pub use laws::{law_faults, law_literals, law_print, law_read_is_short};
pub use lt_spec::{
    MAX_CLIENTS, MAX_CLIENTS_OF_FIRST, MAX_CLIENTS_OF_NODE, MAX_CLIENTS_OF_SECOND, MAX_COMMANDS,
    MAX_COMMANDS_OF_SERVICE, MAX_LINE, MAX_NAME, MAX_NODES, MAX_NODES_OF_FIRST, MAX_SETS,
    MAX_SETS_OF_SERVICE,
};
pub use name::is_name;
pub use printing::print;
pub use reading::read;
pub use script::{Script, SetByName};
