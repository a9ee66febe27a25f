/// How a run ended.
#[derive(Clone, Copy, Debug, PartialEq, Eq)]
pub enum Ending {
    /// At rest, and no client waits.
    Done,
    /// At rest, and a client waits.
    Stuck,
    /// This node has made as many moves as it may, and has a further one.
    Cut { node: u8 },
}
