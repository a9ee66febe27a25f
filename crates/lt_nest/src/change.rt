/// What the end of a transaction changes in each set.
#[derive(Clone, Copy)]
pub enum Change {
    /// The entries of x are its parent's from now on; where there is none they are dropped.
    Inherit { x: u16, parent: Option<u16> },
    /// The entries and asks of transactions that have ended are dropped.
    KeepOpen,
}
