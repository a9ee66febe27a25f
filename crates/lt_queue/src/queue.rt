ghost use Rattle.std.specs.Prelude.{◌≡◌, ◌<◌, ◌≤◌, ◌^◌, [], ◌∷◌, ◌++◌, true, not, length, take, remove, slice_index_or, IfOk, OnOk, OnErr};
ghost use Rattle.lt_modes.specs.Modes.{has, bars};
ghost use Rattle.lt_modes.specs.State.{place, after_holders_from, entered, modes_of_asks, no_ask};
ghost use Rattle.lt_modes.specs.Freezing.{frozen_by};
ghost use Rattle.lt_queue.specs.QueueData.{asks_for};

use lt_modes::{Ask, Mode, ModeCounts, ModeSet};
use std::alloc::{AllocError, Global};
use std::marker::Model;

/// Asks in the order in which they are served.
#[derive(Drop)]
pub struct Queue {
    asks: Vec<Ask>,
    // For each mode, how many asks want it.
    asked: ModeCounts,
    // The place after the last holder's ask, or 0.
    after_holders: u32,
}

impl Model for Queue {
    ghost use Rattle.std.specs.Prelude.{◌≡◌, ◌<◌, ◌^◌, vec_capacity};
    ghost use Rattle.lt_modes.specs.State.{after_holders_from};
    ghost use Rattle.lt_queue.specs.QueueData.{QueueData, AreAskCounts};

    ghost Value = { QueueData };

    ghost view = { λ q. record { asks = q.asks.items; room = vec_capacity q.asks } };

    ghost invariant = { λ q. (vec_capacity q.asks < 2 ^ 32)
        × (AreAskCounts q.asks.items q.asked × (q.after_holders ≡ after_holders_from 0 0 q.asks.items)) };
}

impl Queue {
    pub fn new(alloc: Global, clients: u16) -> Result<Queue, AllocError>
        ensures { IfOk result (λ queue. queue ≡ record { asks = []; room = clients }) }
    {
        let asks = Vec::with_capacity(alloc, usize::from(clients))?;
        Ok(Queue {
            asks,
            asked: ModeCounts::new(),
            after_holders: 0,
        })
    }

    /// Makes places for so many asks in all.
    pub fn reserve(&mut self, asks: u32) -> Result<(), AllocError>
        ensures asks { self.new.asks ≡ self.old.asks }
        ensures room { OnOk result (asks ≤ self.new.room) }
        ensures kept { self.old.room ≤ self.new.room }
        ensures full { OnErr result (self.old.room < asks) }
        ensures unchanged { OnErr result (self.new ≡ self.old) }
    {
        let more = asks.saturating_sub(self.len());
        self.asks.reserve_exact(more as usize)
    }

    pub fn len(&self) -> u32
        ensures length { result ≡ length self.now.asks }
        ensures within { result ≤ self.now.room }
    {
        self.asks.len() as u32
    }

    /// The greatest length that there are places for.
    pub fn room(&self) -> u32
        ensures { result ≡ self.now.room }
    {
        self.asks.capacity() as u32
    }

    pub fn get(&self, k: u32) -> Ask
        requires { k < length self.now.asks }
        ensures { result ≡ slice_index_or self.now.asks k no_ask }
    {
        self.asks[k as usize]
    }

    /// The asks, in order.
    pub fn asks(&self) -> &[Ask]
        ensures { result.now ≡ self.now.asks }
    {
        &self.asks
    }

    /// The modes that the asks want.
    pub fn modes(&self) -> ModeSet
        ensures { result ≡ modes_of_asks self.now.asks }
    {
        self.asked.beyond(ModeSet::empty(), ModeSet::empty())
    }

    /// Takes the ask at place k away.
    #[tactic(auto, using(crate::proofs::AskedLemmas::may_go))]
    #[inline(always)]
    pub fn remove(&mut self, k: u32) -> Ask
        requires { k < length self.old.asks }
        ensures ask { result ≡ slice_index_or self.old.asks k no_ask }
        ensures queue { self.new ≡ record self.old { asks = remove self.old.asks k } }
    {
        self.after_holders = self.after_holders_without(k);
        let ask = self.asks.remove(k as usize);
        self.asked = self.asked.shifted(ModeSet::one(ask.mode), ModeSet::empty());
        ask
    }

    // The place after the last holder's ask, once the ask at place k is taken away.
    fn after_holders_without(&self, k: u32) -> u32
        requires { k < length self.now.asks }
        ensures { result ≡ place (remove self.now.asks k) true }
    {
        if self.after_holders <= k {
            self.after_holders
        } else if k + 1 < self.after_holders {
            self.after_holders - 1
        } else {
            after_holders(&self.asks.as_slice()[..k as usize]) as u32
        }
    }

    /// Where a new ask stands: a holder's directly after the last holder's ask, or first; any other last.
    pub fn place(&self, holder: bool) -> u32
        ensures place { result ≡ place self.now.asks holder }
        ensures within { result ≤ length self.now.asks }
    {
        if holder {
            self.after_holders
        } else {
            self.len()
        }
    }

    /// Puts a new ask at its place.
    #[inline(always)]
    pub fn insert(&mut self, ask: Ask)
        requires { length self.old.asks < self.old.room }
        ensures { self.new ≡ record self.old { asks = entered self.old.asks ask } }
    {
        let k = self.place(ask.holder);
        self.after_holders = self.after_holders_with(&ask);
        match self.asks.insert(k as usize, ask) {
            Ok(()) => {}
            Err(_) => unreachable!(),
        }
        self.asked = self.asked.shifted(ModeSet::empty(), ModeSet::one(ask.mode));
    }

    // The place after the last holder's ask, once this ask is in the queue.
    fn after_holders_with(&self, ask: &Ask) -> u32
        requires { length self.now.asks < self.now.room }
        ensures { result ≡ place (entered self.now.asks ask.now) true }
    {
        if ask.holder {
            self.after_holders + 1
        } else {
            self.after_holders
        }
    }

    /// Puts an ask at the end.
    pub fn push(&mut self, ask: Ask)
        requires { length self.old.asks < self.old.room }
        ensures { self.new ≡ record self.old { asks = self.old.asks ++ ask ∷ [] } }
    {
        self.after_holders = self.after_holders_pushed(&ask);
        self.asks.push_reserved(ask);
        self.asked = self.asked.shifted(ModeSet::empty(), ModeSet::one(ask.mode));
    }

    // The place after the last holder's ask, once this ask is the last one.
    fn after_holders_pushed(&self, ask: &Ask) -> u32
        requires { length self.now.asks < self.now.room }
        ensures { result ≡ after_holders_from 0 0 (self.now.asks ++ ask.now ∷ []) }
    {
        if ask.holder {
            self.len() + 1
        } else {
            self.after_holders
        }
    }

    /// The queue with these asks, in this order.
    pub fn from_asks(alloc: Global, asks: &[Ask]) -> Result<Queue, AllocError>
        requires { length asks.now < 2 ^ 32 }
        ensures { IfOk result (λ queue. queue.asks ≡ asks.now) }
    {
        let mut queue = Queue::new(alloc, 0)?;
        queue.reserve(asks.len() as u32)?;
        for ask in asks {
            queue.push(*ask);
        }
        Ok(queue)
    }

    /// The number of asks for the mode.
    pub fn asked(&self, mode: Mode) -> u32
        ensures { result ≡ asks_for mode self.now.asks }
    {
        self.asked.get(mode)
    }

    /// Whether no ask before place k conflicts with the mode.
    pub fn clear_before(&self, k: u32, mode: Mode) -> bool
        requires { k ≤ length self.now.asks }
        ensures { result ≡ not (has mode (bars (modes_of_asks (take k self.now.asks)))) }
    {
        !modes(&self.asks.as_slice()[..k as usize]).bars().has(mode)
    }

    /// The modes that conflict with a waiting ask.
    pub fn frozen(&self) -> ModeSet
        ensures { result ≡ frozen_by self.now.asks }
    {
        self.modes().bars()
    }
}

// The place after the last holder's ask.
fn after_holders(queue: &[Ask]) -> usize
    ensures place { result ≡ after_holders_from 0 0 queue.now }
    ensures within { result ≤ length queue.now }
{
    let mut found = 0;
    for (k, ask) in queue.iter().enumerate() {
        if ask.holder {
            found = k + 1;
        }
    }
    found
}

// The modes that these asks want.
fn modes(asks: &[Ask]) -> ModeSet
    ensures { result ≡ modes_of_asks asks.now }
{
    asks.iter()
        .fold(ModeSet::empty(), |modes, ask| modes.with(ask.mode))
}
