//! Where the bytes of the lock service come from, and where they go to.
#![tactic(auto)]

mod adapters;
mod memory;
mod piece;
mod sink;
mod source;
mod sure;
mod whole;

pub use adapters::{ReaderSource, WriterSink};
pub use memory::{MemorySink, MemorySource};
pub use piece::{MAX_PIECE, read_piece, skip_all};
pub use sink::Sink;
pub use source::{Failed, Source};
pub use sure::{SureSink, SureSource};
pub use whole::{ReadFailure, read_all, write_all};
