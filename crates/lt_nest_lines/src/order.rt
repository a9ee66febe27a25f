use lt_modes::Mode;

/// What a line orders. Sets and transactions go by their numbers, as they are declared.
#[derive(Clone, Copy, Debug, PartialEq, Eq)]
pub enum Order {
    /// Begin the next transaction.
    Begin,
    /// Begin the next transaction under this parent.
    BeginIn {
        parent: u16,
    },
    Lock {
        transaction: u16,
        set: u8,
        mode: Mode,
    },
    Try {
        transaction: u16,
        set: u8,
        mode: Mode,
    },
    Commit {
        transaction: u16,
    },
    Abort {
        transaction: u16,
    },
}
