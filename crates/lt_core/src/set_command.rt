// A client's command in one set, and its answer.
use lt_modes::Mode;

/// What a client's command does in the set of a core.
#[derive(Clone, Copy, Debug, PartialEq, Eq)]
pub enum SetCommand {
    Lock(Mode),
    Try(Mode),
    Unlock(Mode),
    /// From the first mode to the second.
    Change(Mode, Mode),
    DropAll,
    /// Gives up what this client waits for.
    Withdraw(u16),
}

/// What the client of a move is told at once.
#[derive(Clone, Copy, Debug, PartialEq, Eq)]
pub enum Answer {
    Granted,
    /// The node can't grant the lock yet; the client's ask goes to the desk.
    Waits,
    True,
    False,
    Unlocked,
    NotHeld,
    Changed,
    /// So many locks were dropped.
    Dropped(u64),
    /// The client whose locks were to be dropped waits.
    Busy,
    /// The client can't ask: an ask of it that was given up is still here, and wants something else.
    Withheld,
}
