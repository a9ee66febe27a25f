/// The most sets that an input declares.
pub const MAX_SETS: usize = 8;

/// The most transactions that an input declares.
pub const MAX_TRANSACTIONS: usize = 256;

/// The most lines of an input that aren't skipped.
pub const MAX_LINES: usize = 65_535;

/// The most bytes that an input may have.
pub const MAX_INPUT: usize = 1_048_576;
