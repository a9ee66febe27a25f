use crate::mode::Mode;
use crate::mode_set::ModeSet;

/// What a move shows in the journal: one variant for each event line, but for the two lines of `try`.
#[derive(Clone, Copy, Debug, PartialEq, Eq)]
pub enum Event {
    Grant {
        client: u16,
        set: u32,
        mode: Mode,
    },
    Wait {
        client: u16,
        set: u32,
        mode: Mode,
    },
    Try {
        client: u16,
        set: u32,
        mode: Mode,
        got: bool,
    },
    Unlock {
        client: u16,
        set: u32,
        mode: Mode,
    },
    NotHeld {
        client: u16,
        set: u32,
        mode: Mode,
    },
    Change {
        client: u16,
        set: u32,
        gives_up: Mode,
        mode: Mode,
    },
    /// `client` dropped `count` locks of `other` in the family of `set`.
    DropAll {
        client: u16,
        other: u16,
        set: u32,
        count: u64,
    },
    /// `other` waits, so `client` dropped nothing.
    Busy {
        client: u16,
        other: u16,
        set: u32,
    },
    /// `client` gave up what `other` waited for in `set`, or `other` waited for nothing there.
    Withdraw {
        client: u16,
        other: u16,
        set: u32,
        got: bool,
    },
    /// `client` waited for this, and waits no more.
    Withdrawn {
        client: u16,
        set: u32,
        mode: Mode,
    },
    /// An ask of `client` that was given up is answered; the client gets nothing.
    Void {
        client: u16,
        set: u32,
        mode: Mode,
    },
    /// `client` can't ask, since an ask of it that was given up is still unanswered in the set.
    Withheld {
        client: u16,
        set: u32,
        mode: Mode,
    },
    Copy {
        set: u32,
        to: u8,
        client: u16,
        mode: Mode,
    },
    Freeze {
        set: u32,
        to: u8,
        number: u64,
        modes: ModeSet,
    },
    Token {
        set: u32,
        to: u8,
        epoch: u64,
    },
}
