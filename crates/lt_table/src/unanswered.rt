ghost use Rattle.std.specs.Prelude.{◌≡◌, ◌<◌, [], ◌∷◌, ◌++◌, length, position, IfOk, IfSome};
ghost use Rattle.std.specs.List.{list_any};
ghost use Rattle.lt_modes.specs.State.{without, has_stamp, same_ask};
ghost use Rattle.lt_modes.specs.Fits.{has_client};
ghost use Rattle.lt_modes.specs.Routing.{is_behind};
ghost use Rattle.lt_modes.specs.Telling.{stamps_of};

use crate::pending::Pending;
use lt_modes::{Ask, Stamp};
use std::alloc::{AllocError, Global};
use std::marker::Model;

/// The unanswered asks of a node's clients: at most 16.
#[derive(Drop)]
pub struct Unanswered {
    asks: Vec<Ask>,
    // Their stamps, as the desk reads them.
    stamps: Pending,
}

impl Model for Unanswered {
    ghost use Rattle.std.specs.Prelude.{◌≡◌, ◌≤◌, List, vec_capacity};
    ghost use Rattle.lt_modes.specs.declared.ask.Ask.{Ask};
    ghost use Rattle.lt_modes.specs.Telling.{stamps_of};

    ghost Value = { List Ask };

    ghost view = { λ u. u.asks.items };

    ghost invariant = { λ u. (stamps_of u.asks.items ≡ u.stamps) × (16 ≤ vec_capacity u.asks) };
}

impl Unanswered {
    pub fn new(alloc: Global) -> Result<Unanswered, AllocError>
        ensures { IfOk result (λ asks. asks ≡ []) }
    {
        Ok(Unanswered {
            asks: Vec::with_capacity(alloc, 16)?,
            stamps: Pending::new(),
        })
    }

    pub fn asks(&self) -> &[Ask]
        ensures { result.now ≡ self.now }
    {
        self.asks.as_slice()
    }

    /// The stamps of the asks.
    pub fn stamps(&self) -> &Pending
        ensures { stamps_of self.now ≡ result.now }
    {
        &self.stamps
    }

    pub fn push(&mut self, ask: Ask)
        requires { length self.old < 16 }
        ensures { self.new ≡ self.old ++ ask ∷ [] }
    {
        self.asks.push_reserved(ask);
        self.stamps.push(ask.stamp);
    }

    /// Takes away the first ask that has the stamp, where there is one.
    pub fn forget(&mut self, stamp: Stamp)
        ensures { self.new ≡ without self.old stamp }
    {
        if let Some(k) = place(self.asks.as_slice(), stamp) {
            self.asks.remove(k);
        }
        self.stamps.remove(stamp);
    }

    /// Whether the ask is one of these.
    pub fn has(&self, ask: &Ask) -> bool
        ensures { result ≡ list_any (same_ask ask.now) self.now }
    {
        self.asks.iter().any(|own| is_same(ask, own))
    }

    /// Whether one of the asks is of the client.
    pub fn has_client(&self, client: u16) -> bool
        ensures { result ≡ has_client client self.now }
    {
        self.asks.iter().any(|ask| ask.client == client)
    }

    /// Whether a taking ask among these is older.
    pub fn is_behind(&self, ask: &Ask) -> bool
        ensures { result ≡ is_behind self.now ask.now }
    {
        self.asks
            .iter()
            .any(|own| own.mode.taking() && ask.stamp.is_newer(own.stamp))
    }
}

// The place of the first ask that has the stamp.
fn place(asks: &[Ask], stamp: Stamp) -> Option<usize>
    ensures place { result ≡ position (has_stamp stamp) asks.now }
    ensures within { IfSome result (λ k. k < length asks.now) }
{
    asks.iter().position(|ask| ask.stamp == stamp)
}

// Whether the asks are equal in all fields.
fn is_same(a: &Ask, b: &Ask) -> bool
    ensures { result ≡ same_ask a.now b.now }
{
    b.stamp == a.stamp
        && (a.client == b.client
            && (a.node == b.node
                && (a.mode == b.mode && (a.gives_up == b.gives_up && a.holder == b.holder))))
}
