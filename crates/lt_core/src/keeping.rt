// How much the core keeps, and that it is within the bounds of a move.
ghost use Rattle.std.specs.Prelude.{◌≡◌, ◌+◌, ◌<◌, ◌≤◌, ◌^◌, ◌&&◌, nat_le, length, map, filter_map};
ghost use Rattle.lt_modes.specs.Modes.{locks_in};
ghost use Rattle.lt_modes.specs.Fits.{asks_here, ask_if};
ghost use Rattle.lt_desk.specs.LetterSeen.{parked_seen};
ghost use Rattle.lt_core.specs.Bound.{most};
ghost use Rattle.lt_core.specs.CoreData.{waiting_here, epoch_of, freeze_number_of};

use crate::one_set::{Core, asks_of};
use lt_desk::Parked;
use lt_modes::Ask;
use std::collections::VecDeque;

impl Core {
    /// Whether no more locks than that are held.
    pub fn holds_at_most(&self, locks: u64) -> bool
        ensures { result ≡ nat_le (locks_in self.now.state.held) locks }
    {
        self.held.holds_at_most(locks)
    }

    /// Whether no more asks than that wait here, in the queue and for the token.
    pub fn keeps_at_most(&self, asks: u32) -> bool
        ensures { result ≡ nat_le (length (asks_here self.now.state)) asks }
    {
        let queued = self.queue_len();
        queued <= asks && count_parked(&self.parked) <= (asks - queued) as usize
    }

    /// Whether the desk is elsewhere, or neither its epoch nor its freeze number is above the clock.
    pub fn is_desk_within(&self, clock: u64) -> bool
        ensures { result ≡ (nat_le (epoch_of self.now.state.desk) clock && nat_le (freeze_number_of self.now.state.desk) clock) }
    {
        match &self.desk {
            Some(desk) => desk.epoch() <= clock && desk.freeze_number() <= clock,
            None => true,
        }
    }

    /// The unanswered asks, in order.
    pub fn asks(&self) -> &[Ask]
        ensures { result.now ≡ self.now.state.pending }
    {
        self.pending.asks()
    }

    /// The number of unanswered asks.
    pub fn unanswered(&self) -> usize
        ensures { result ≡ length self.now.state.pending }
    {
        self.pending.asks().len()
    }

    /// How many letters, and event lines, the end of a move may send.
    pub fn most_sent(&self) -> u32
        requires { waiting_here self.now.state + 65 < 2 ^ 32 }
        ensures most { result ≡ most self.now.state }
        ensures within { result ≤ waiting_here self.now.state + 65 }
    {
        let nodes = match &self.desk {
            Some(desk) => desk.nodes(),
            None => 0,
        };
        self.waiting() + u32::from(nodes) + 1
    }
}

// How many asks are parked.
pub(crate) fn count_parked(parked: &VecDeque<Parked>) -> usize
    ensures { result ≡ length (filter_map ask_if (map parked_seen parked.now.items)) }
{
    let mut asks = 0;
    for k in 0..parked.len() {
        asks += asks_of(&parked[k]) as usize;
    }
    asks
}
