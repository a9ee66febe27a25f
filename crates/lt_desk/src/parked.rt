ghost use Rattle.std.specs.Prelude.{◌≡◌};
ghost use Rattle.lt_modes.specs.Routing.{body_of};
ghost use Rattle.lt_desk.specs.LetterSeen.{parked_seen, body_seen};

use crate::letter::Body;
use lt_modes::{Ask, ModeSet, Stamp};
use lt_table::Pending;

/// What a node tells the desk: its held modes and its unanswered asks at a move.
#[derive(Drop)]
pub struct Tell {
    pub node: u8,
    pub modes: ModeSet,
    // In a box, so that letters are small.
    pub pending: Box<Pending>,
    /// The stamp of that move.
    pub stamp: Stamp,
}

/// An ask or a tell on its way to the desk.
#[derive(Drop)]
pub enum Parked {
    Ask(Ask),
    Tell(Tell),
}

impl Parked {
    /// What a letter says that brings it, marked where it came by a hoped link.
    pub fn into_body(self, by_hoped: bool) -> Body
        ensures { body_seen result ≡ body_of (parked_seen self) by_hoped }
    {
        match self {
            Parked::Ask(ask) => Body::Ask { ask, by_hoped },
            Parked::Tell(tell) => Body::Tell(tell),
        }
    }
}
