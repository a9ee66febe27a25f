use crate::mode::Mode;
use crate::stamp::Stamp;

/// How many locks of one mode a client holds in a set.
#[derive(Clone, Copy, Debug, PartialEq, Eq)]
pub struct Row {
    pub client: u16,
    pub mode: Mode,
    pub count: u64,
}

/// The node to which the token went with this epoch.
#[derive(Clone, Copy, Debug, PartialEq, Eq)]
pub struct Link {
    pub node: u8,
    pub epoch: u64,
}

/// The node and the stamp of a taking ask that was sent on.
#[derive(Clone, Copy, Debug, PartialEq, Eq)]
pub struct Hoped {
    pub node: u8,
    pub stamp: Stamp,
}

/// An ask that was sent a copy.
#[derive(Clone, Copy, Debug, PartialEq, Eq)]
pub struct Owed {
    pub stamp: Stamp,
    pub mode: Mode,
}
