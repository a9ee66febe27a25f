use crate::mode::Mode;

/// What a client asks of the service.
#[derive(Clone, Copy, Debug, PartialEq, Eq)]
pub enum Command {
    Lock {
        set: u32,
        mode: Mode,
    },
    Try {
        set: u32,
        mode: Mode,
    },
    Unlock {
        set: u32,
        mode: Mode,
    },
    Change {
        set: u32,
        gives_up: Mode,
        mode: Mode,
    },
    /// Drops all locks of `client` in the family of `set`.
    DropAll {
        client: u16,
        set: u32,
    },
    /// Gives up what `client` waits for in `set`; its locks stay.
    Withdraw {
        client: u16,
        set: u32,
    },
}
