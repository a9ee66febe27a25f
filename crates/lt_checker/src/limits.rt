/// The most bytes that a script and its journal may have.
pub const MAX_JOURNAL: usize = 67_108_864;
