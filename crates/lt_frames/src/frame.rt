//! What a frame is made of.

use lt_desk::Letter;

/// The version of the format.
pub const VERSION: u8 = 1;

/// How many bytes stand before a letter: its length, the version, the service, both nodes and its number.
pub const HEAD: usize = 23;

/// How many bytes the seal has, which stands after the letter.
pub const SEAL: usize = 16;

/// The most bytes of a letter.
pub const MAX_LETTER: u32 = 16_777_216;

/// Where letters go by: the number of their service, the node that sends them and the one that they are for.
#[derive(Clone, Copy, Debug, PartialEq, Eq)]
pub struct Wire {
    pub service: u64,
    pub from: u8,
    pub to: u8,
}

/// A frame that was read.
#[derive(Drop)]
pub struct Frame {
    /// The letter's number among those of its wire; the first has 0.
    pub number: u64,
    pub letter: Letter,
    /// How many bytes the frame has.
    pub size: usize,
}
