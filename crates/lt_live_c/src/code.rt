// Numbers for C: how a call ended, replies, modes and commands.
ghost use Rattle.std.specs.Prelude.{◌≡◌};
ghost use Rattle.lt_live_c.specs.Calls.{number_of_reply, count_for_c, number_of_turn, mode_numbered, command_numbered, command_with_mode, with_modes, drop_of, withdraw_of};
ghost use Rattle.lt_modes.specs.declared.command.Command.TheVariants as commands;

use lt_live::Reply;
use lt_modes::{Command, Mode};
use lt_runner::Turned;

pub const OK: u32 = 0;

/// Nothing is there to be taken, made or told.
pub const NOTHING: u32 = 1;

/// The handle stands for something else, or for nothing.
pub const WRONG_HANDLE: u32 = 2;

pub const NO_MEMORY: u32 = 3;

pub const BAD_ARGUMENT: u32 = 4;

pub const BAD_SCRIPT: u32 = 5;

/// The session's share of commands is used up.
pub const SPENT: u32 = 6;

/// The ring has no place now.
pub const FULL: u32 = 7;

/// A move was found, and the log has no place for it.
pub const LOG_FULL: u32 = 8;

/// Some station has forgotten moves or commands.
pub const FORGOTTEN: u32 = 9;

/// There are more commands or sets than the text of a script may have, or more sets than a service may have.
pub const TOO_MANY: u32 = 10;

/// A further set has no new name, or its parent is no set.
pub const BAD_SET: u32 = 11;

/// The frame is of another version of the format.
pub const OTHER_VERSION: u32 = 40;

/// The frame is of another service: of another script, or of another start.
pub const OTHER_SERVICE: u32 = 41;

/// The frame is of another node than the one that it is said to come from, or for another one.
pub const OTHER_NODE: u32 = 42;

/// Frames before this one are missing.
pub const MISSING: u32 = 43;

/// The frame was received before.
pub const AGAIN: u32 = 44;

/// Its letter has more bytes than a letter may have.
pub const TOO_LONG: u32 = 45;

/// The frame's seal isn't that of its head and its letter under the key.
pub const BAD_SEAL: u32 = 46;

/// What the frame's seal is right for is no letter.
pub const NO_LETTER: u32 = 47;

/// The next letter of a node doesn't fit: no node that was opened with this script sent it.
pub const MISFIT: u32 = 48;

/// How a turn ended.
pub fn number_of_turn(turned: Turned) -> u32
    ensures { result ≡ number_of_turn turned }
{
    match turned {
        Turned::Moved => OK,
        Turned::Quiet => NOTHING,
        Turned::Full => LOG_FULL,
        Turned::NoMemory => NO_MEMORY,
    }
}

/// The reply's number. Of dropped locks `count` tells how many they were.
pub fn number_of_reply(reply: Reply, count: &mut u64) -> u32
    ensures number { result ≡ number_of_reply reply }
    ensures count { count.new ≡ count_for_c reply count.old }
{
    match reply {
        Reply::Granted => 16,
        Reply::True => 17,
        Reply::False => 18,
        Reply::Unlocked => 19,
        Reply::NotHeld => 20,
        Reply::Changed => 21,
        Reply::Dropped(dropped) => {
            *count = dropped;
            22
        }
        Reply::Busy => 23,
        Reply::Withdrawn => 24,
        Reply::Withheld => 25,
    }
}

/// The command of this kind.
pub fn command_numbered(kind: u32, set: u32, first: u32, second: u32) -> Option<Command>
    ensures { result ≡ command_numbered kind set first second }
{
    match kind {
        0 => lock(set, mode_numbered(first)),
        1 => try_lock(set, mode_numbered(first)),
        2 => unlock(set, mode_numbered(first)),
        3 => change(set, mode_numbered(first), mode_numbered(second)),
        4 => drop_locks(set, first),
        5 => withdraw(set, first),
        _ => None,
    }
}

/// The mode of this number, in the order in which the table of conflicts has them.
pub fn mode_numbered(number: u32) -> Option<Mode>
    ensures { result ≡ mode_numbered number }
{
    match number {
        0 => Some(Mode::IntentionRead),
        1 => Some(Mode::Read),
        2 => Some(Mode::Upgrade),
        3 => Some(Mode::IntentionWrite),
        4 => Some(Mode::ReadIntentionWrite),
        5 => Some(Mode::Write),
        _ => None,
    }
}

fn lock(set: u32, mode: Option<Mode>) -> Option<Command>
    ensures { result ≡ command_with_mode (λ mode. commands.Lock set mode) mode }
{
    match mode {
        Some(mode) => Some(Command::Lock { set, mode }),
        None => None,
    }
}

fn try_lock(set: u32, mode: Option<Mode>) -> Option<Command>
    ensures { result ≡ command_with_mode (λ mode. commands.Try set mode) mode }
{
    match mode {
        Some(mode) => Some(Command::Try { set, mode }),
        None => None,
    }
}

fn unlock(set: u32, mode: Option<Mode>) -> Option<Command>
    ensures { result ≡ command_with_mode (λ mode. commands.Unlock set mode) mode }
{
    match mode {
        Some(mode) => Some(Command::Unlock { set, mode }),
        None => None,
    }
}

fn change(set: u32, gives_up: Option<Mode>, mode: Option<Mode>) -> Option<Command>
    ensures { result ≡ with_modes (λ gives_up mode. commands.Change set gives_up mode) gives_up mode }
{
    match (gives_up, mode) {
        (Some(gives_up), Some(mode)) => Some(Command::Change {
            set,
            gives_up,
            mode,
        }),
        _ => None,
    }
}

fn drop_locks(set: u32, client: u32) -> Option<Command>
    ensures { result ≡ drop_of set client }
{
    if client < 65536 {
        Some(Command::DropAll {
            client: client as u16,
            set,
        })
    } else {
        None
    }
}

fn withdraw(set: u32, client: u32) -> Option<Command>
    ensures { result ≡ withdraw_of set client }
{
    if client < 65536 {
        Some(Command::Withdraw {
            client: client as u16,
            set,
        })
    } else {
        None
    }
}
