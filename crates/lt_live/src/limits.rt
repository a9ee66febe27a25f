/// How many letters a ring between two nodes has places for.
pub const LETTER_PLACES: u32 = 64;
