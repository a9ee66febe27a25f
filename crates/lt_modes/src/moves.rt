use crate::stamp::Stamp;

/// What a node does in one move: the next command of one of its clients, or the front letter of one sender.
#[derive(Clone, Copy, Debug, PartialEq, Eq)]
pub enum Step {
    Act(u16),
    Take(u8),
}

/// A move of the node that its stamp names.
#[derive(Clone, Copy, Debug, PartialEq, Eq)]
pub struct Move {
    pub stamp: Stamp,
    pub step: Step,
}
