/// What a node's thread passes before each of its moves, once that move is chosen.
///
/// A gate decides nothing: it is for programs that watch the threads or hold them up.
pub trait Gate: Sync {
    fn pass(&self, node: u8);
}

/// The gate that all pass at once.
#[derive(Clone, Copy, Debug, Drop)]
pub struct Open;

impl Gate for Open {
    fn pass(&self, _node: u8) {}
}
