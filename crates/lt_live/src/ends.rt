ghost use Rattle.std.specs.Prelude.{◌≡◌, ◌+◌, ◌<◌, ◌≤◌, length, min};
ghost use Rattle.rtrb.specs.Ring.{sent, received, known_free, producer_capacity};
ghost use Rattle.lt_live.specs.Submitting.{MayAskAll};

use crate::reply::Reply;
use lt_modes::Command;
use lt_script::Script;
use rtrb::{Consumer, Producer};
use std::collections::VecDeque;

/// A caller's end: it submits the commands of one client, and polls for their replies.
pub struct Session {
    pub(crate) script: Script,
    pub(crate) client: u16,
    // Where its other end is among those of its station.
    pub(crate) place: usize,
    pub(crate) share: u64,
    // How many commands of the share are left.
    pub(crate) left: u64,
    // How many replies were polled, up to the share.
    pub(crate) answered: u64,
    pub(crate) commands: Producer<Command>,
    pub(crate) replies: Consumer<Reply>,
    pub(crate) ghost known: { client < length script.clients },
    // So many commands at least have found or will find a place.
    pub(crate) ghost roomy: { producer_capacity commands ≤ known_free commands + length (sent commands) },
    pub(crate) ghost spent: { length (sent commands) + left ≡ share },
    // What was submitted may be submitted.
    pub(crate) ghost asks: { MayAskAll script client (sent commands) },
    pub(crate) ghost counted: { answered ≡ min share (length (received replies)) },
}

// Written out, so that all places which let a session go call this.
impl Drop for Session {
    fn drop(self) {
        let Session {
            script,
            client: _,
            place: _,
            share: _,
            left: _,
            answered: _,
            commands,
            replies,
        } = self;
        drop(script);
        drop(commands);
        drop(replies);
    }
}

/// A station's end of a session.
#[derive(Drop)]
pub struct Seat {
    pub(crate) client: u16,
    pub(crate) commands: Consumer<Command>,
    // A command that was taken and isn't appended yet.
    pub(crate) hand: Option<Command>,
    pub(crate) replies: Producer<Reply>,
    // Replies that found no place in the ring yet.
    pub(crate) waiting: VecDeque<Reply>,
    // All lines of so many moves were read, and so many lines of the next one.
    pub(crate) moves: u64,
    pub(crate) lines: usize,
}
