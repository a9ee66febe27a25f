use lt_modes::Step;

/// A move that a node might make.
#[derive(Clone, Copy, Debug, PartialEq, Eq)]
pub struct Choice {
    pub node: u8,
    pub step: Step,
}
