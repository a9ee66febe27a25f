// Who waits here, and which asks stand before a client's ask.
ghost use Rattle.std.specs.Prelude.{◌≡◌, ◌<◌, ◌==◌, ◌&&◌, is_some, length, slice_index_or};
ghost use Rattle.lt_modes.specs.Modes.{count_of, excludes_itself};
ghost use Rattle.lt_modes.specs.State.{no_ask, ParkedAsk};
ghost use Rattle.lt_modes.specs.Serving.{queue_of, ask_at};
ghost use Rattle.lt_modes.specs.Waiting.{waits, pending_ask, is_before, stands_before, has_older, parked_behind};
ghost use Rattle.lt_modes.specs.Telling.{is_newer};
ghost use Rattle.lt_core.specs.Behind.{is_behind_older};
ghost use Rattle.lt_core.specs.Steps.{live_ask};

use crate::fits::has_later;
use crate::one_set::Core;
use lt_desk::{Desk, Parked};
use lt_modes::{Ask, Mode};

// What a client of the set holds and waits for, and behind whose asks.
impl Core {
    /// How many locks of the mode the client holds.
    pub fn count(&self, client: u16, mode: Mode) -> u64
        ensures { result ≡ count_of self.now.state.held client mode }
    {
        self.held.count(client, mode)
    }

    /// The ask for which the client waits here, if it does.
    pub fn live_ask(&self, client: u16) -> Option<Ask>
        ensures ask { result ≡ live_ask self.now.state client }
        ensures some { is_some result ≡ waits self.now.state client }
    {
        if self.marks.has(client) {
            None
        } else {
            self.ask_of(client)
        }
    }

    /// The first of the client's unanswered asks here, if it has one, given up or not.
    pub fn ask_of(&self, client: u16) -> Option<Ask>
        ensures { result ≡ pending_ask self.now.state client }
    {
        let asks = self.pending.asks();
        for k in 0..asks.len() {
            if asks[k].client == client {
                return Some(asks[k]);
            }
        }
        None
    }

    /// The length of the queue of the desk here; 0 where the desk is elsewhere.
    pub fn queue_len(&self) -> u32
        ensures { result ≡ length (queue_of self.now.state) }
    {
        match &self.desk {
            Some(desk) => desk.len(),
            None => 0,
        }
    }

    /// The ask at place k of the queue of the desk here.
    pub fn queued(&self, k: u32) -> Ask
        requires { k < length (queue_of self.now.state) }
        ensures { result ≡ ask_at self.now.state k }
    {
        match &self.desk {
            Some(desk) => desk.ask(k),
            None => unreachable!(),
        }
    }

    /// Whether in the queue of the desk here an ask of the other client stands before one of the client.
    pub fn stands_before(&self, other: u16, client: u16) -> bool
        ensures { result ≡ stands_before self.now.state other client }
    {
        match &self.desk {
            Some(desk) => is_before(desk, other, client),
            None => false,
        }
    }

    /// Whether an ask of the client is parked here behind an older one of the other client.
    pub fn parked_behind(&self, other: u16, client: u16) -> bool
        ensures { result ≡ parked_behind self.now.state other client }
    {
        for k in 0..self.parked_len() {
            if self.is_behind(k, other, client) {
                return true;
            }
        }
        false
    }

    // Whether an ask of the client is parked at this place, behind an older one of the other client.
    fn is_behind(&self, k: usize, other: u16, client: u16) -> bool
        requires { k < length self.now.state.parked }
        ensures { result ≡ is_behind_older self.now.state other client (slice_index_or self.now.state.parked k (ParkedAsk no_ask)) }
    {
        match &self.parked[k] {
            Parked::Ask(ask) => ask.client == client && self.has_older(other, ask),
            Parked::Tell(_) => false,
        }
    }

    // Whether an ask of the other client that excludes itself is unanswered here, and older than this one.
    fn has_older(&self, other: u16, ask: &Ask) -> bool
        ensures { result ≡ has_older self.now.state other ask.now }
    {
        let asks = self.pending.asks();
        for k in 0..asks.len() {
            if is_older(&asks[k], other, ask) {
                return true;
            }
        }
        false
    }
}

// Whether the ask is one of the other client that excludes itself, and older than the second one.
fn is_older(older: &Ask, other: u16, ask: &Ask) -> bool
    ensures { result ≡ (older.now.client == other && (excludes_itself older.now.mode && is_newer ask.now.stamp older.now.stamp)) }
{
    older.client == other && (older.mode.taking() && ask.stamp.is_newer(older.stamp))
}

// Whether in the desk's queue an ask of the first client stands before one of the second.
#[tactic(auto, using(crate::proofs::BoundLemmas::before_step))]
fn is_before(desk: &Desk, first: u16, second: u16) -> bool
    ensures { result ≡ is_before first second desk.now.desk.queue }
{
    for k in 0..desk.len() {
        if desk.ask(k).client == first && has_later(desk, k + 1, second) {
            return true;
        }
    }
    false
}
