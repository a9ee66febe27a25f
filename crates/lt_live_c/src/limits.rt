/// The most bytes of a script's text.
pub const MAX_BYTES: usize = 1 << 20;
