/// The most moves that a node may make in a run of a script.
pub const MAX_MOVES: u32 = 1 << 30;

/// The most moves that a node of a service may make in all its life. Those of 64 nodes are fewer than 2^62, so no clock
/// comes to its bound.
pub const MAX_MOVES_OF_SERVICE: u64 = 1 << 55;
