/// The most bytes that a script may have.
pub const MAX_INPUT: usize = 1_048_576;
