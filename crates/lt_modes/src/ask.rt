use crate::mode::Mode;
use crate::stamp::Stamp;

/// A client's request that its own node could not grant at once.
#[derive(Clone, Copy, Debug, PartialEq, Eq)]
pub struct Ask {
    pub client: u16,
    /// The client's node.
    pub node: u8,
    pub mode: Mode,
    /// The mode that the grant turns into `mode`, for a `change`.
    pub gives_up: Option<Mode>,
    /// Whether the client held some lock in the set as it asked.
    pub holder: bool,
    /// The stamp of the move that made the ask.
    pub stamp: Stamp,
}
