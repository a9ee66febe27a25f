use lt_spec::MAX_MOVES;

/// The most bytes that a script may have.
pub const MAX_INPUT: usize = 1_048_576;

// How many moves a node may make: more than any run has.
pub(crate) const MOVES: u32 = MAX_MOVES;

// How often a caller, and a station, does something before all come together.
pub(crate) const TRIES: u32 = 64;

// How many workers share the nodes, and how often one looks in vain for a move before it ends.
pub(crate) const WORKERS: u8 = 8;

pub(crate) const PATIENCE: u32 = 256;
