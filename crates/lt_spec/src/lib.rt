//! What the service means: the moves of a node, the world, its runs, what is held and who waits by their lines, how
//! runs end; which scripts there are, which of them are ordered; and what is promised of a run.
#![tactic(auto)]

mod ending;
mod limits;
mod moves;

pub use ending::Ending;
pub use limits::{
    MAX_CLIENTS, MAX_CLIENTS_OF_FIRST, MAX_CLIENTS_OF_NODE, MAX_CLIENTS_OF_SECOND, MAX_COMMANDS,
    MAX_COMMANDS_OF_SERVICE, MAX_LINE, MAX_NAME, MAX_NODES, MAX_NODES_OF_FIRST, MAX_SETS,
    MAX_SETS_OF_SERVICE,
};
pub use moves::{MAX_MOVES, MAX_MOVES_OF_SERVICE};
