ghost use Rattle.std.specs.Prelude.{◌≡◌, ◌+◌, ◌==◌, not, nat_le, ◌≤◌, ◌<◌, [], if◌then◌else◌, IfOk, OnOk, OnErr};
ghost use Rattle.std.specs.Bool.{OnTrue, OnFalse};
ghost use Rattle.std.specs.List.{list_any};
ghost use Rattle.lt_modes.specs.declared.mode.Mode.{Mode as AnyMode};
ghost use Rattle.lt_modes.specs.Modes.{has, bars, count_of, add_lock, take_lock, is_of, held_modes, own_modes, other_modes, locks_of, locks_in, without_client};
ghost use Rattle.lt_held.specs.HeldData.{AreRows, most_locks};

use crate::rows;
use lt_modes::{Mode, ModeSet, Row};
use std::alloc::{AllocError, Global};
use std::marker::Model;

/// How many locks of each mode each client holds.
#[derive(Drop)]
pub struct Held {
    rows: Vec<Row>,
}

impl Model for Held {
    ghost use Rattle.std.specs.Prelude.{◌-◌, vec_len, vec_capacity};
    ghost use Rattle.lt_held.specs.HeldData.{HeldData, AreRows};

    ghost Value = { HeldData };

    ghost view = { λ h. record { rows = h.rows.items; spare = vec_capacity h.rows - vec_len h.rows } };

    ghost invariant = { λ h. AreRows h.rows.items };
}

impl Held {
    /// No locks, for which no memory is taken.
    pub fn new(alloc: Global) -> Held
        ensures { result.rows ≡ [] }
    {
        Held {
            rows: Vec::new(alloc),
        }
    }

    /// Makes room for so many further rows.
    pub fn reserve(&mut self, rows: u32) -> Result<(), AllocError>
        ensures rows { self.new.rows ≡ self.old.rows }
        ensures spare { OnOk result (rows ≤ self.new.spare) }
        ensures spare_kept { self.old.spare ≤ self.new.spare }
        ensures full { OnErr result (self.old.spare < rows) }
        ensures unchanged { OnErr result (self.new ≡ self.old) }
    {
        self.rows.reserve(rows as usize)
    }

    /// How many locks of the mode the client holds.
    pub fn count(&self, client: u16, mode: Mode) -> u64
        ensures count { result ≡ count_of self.now.rows client mode }
        ensures within { result ≤ locks_in self.now.rows }
        ensures bounded { result ≤ most_locks }
        ensures rows { AreRows self.now.rows }
    {
        match rows::place(&self.rows, client, mode) {
            Some(k) => self.rows[k].count,
            None => 0,
        }
    }

    /// How many locks the client holds.
    pub fn locks_of(&self, client: u16) -> u64
        ensures { result ≡ locks_of self.now.rows client }
    {
        rows::locks(&self.rows, client)
    }

    /// Whether no more locks than that are held.
    pub fn holds_at_most(&self, locks: u64) -> bool
        ensures { result ≡ nat_le (locks_in self.now.rows) locks }
    {
        rows::hold_at_most(&self.rows, locks)
    }

    /// The modes that are held.
    pub fn modes(&self) -> ModeSet
        ensures { result ≡ held_modes self.now.rows }
    {
        rows::modes(&self.rows)
    }

    /// The modes that the client holds.
    pub fn modes_of(&self, client: u16) -> ModeSet
        ensures { result ≡ own_modes self.now.rows client }
    {
        rows::own_modes(&self.rows, client)
    }

    /// The modes that other clients hold.
    pub fn modes_of_others(&self, client: u16) -> ModeSet
        ensures { result ≡ other_modes self.now.rows client }
    {
        rows::other_modes(&self.rows, client)
    }

    /// Whether a lock of another client conflicts with the mode.
    pub fn others_bar(&self, client: u16, mode: Mode) -> bool
        ensures { result ≡ has mode (bars (other_modes self.now.rows client)) }
    {
        self.modes_of_others(client).bars().has(mode)
    }

    /// Whether the client holds some lock.
    pub fn is_holder(&self, client: u16) -> bool
        ensures { result ≡ list_any (is_of client) self.now.rows }
    {
        self.rows.iter().any(|row| row.client == client)
    }

    /// Gives the client one lock more.
    #[tactic(auto, using(crate::proofs::RowLemmas::rows_pushed))]
    #[inline(always)]
    pub fn add(&mut self, client: u16, mode: Mode)
        requires spare { 1 ≤ self.old.spare }
        requires count { count_of self.old.rows client mode < most_locks }
        ensures rows { self.new.rows ≡ add_lock self.old.rows client mode }
        ensures total { locks_in self.new.rows ≡ locks_in self.old.rows + 1 }
        ensures spare { self.old.spare ≤ self.new.spare + 1 }
    {
        match rows::place(&self.rows, client, mode) {
            Some(k) => self.rows[k].count += 1,
            None => self.rows.push_reserved(Row {
                client,
                mode,
                count: 1,
            }),
        }
    }

    /// Takes one lock away, where the client has one.
    #[tactic(auto, using(crate::proofs::RowLemmas::count_taken))]
    #[inline(always)]
    pub fn take(&mut self, client: u16, mode: Mode) -> bool
        ensures taken { result ≡ not (count_of self.old.rows client mode == 0) }
        ensures rows { self.new.rows ≡ take_lock self.old.rows client mode }
        ensures total { locks_in self.old.rows ≡ locks_in self.new.rows + (if result then 1 else 0) }
        ensures unchanged { OnFalse result (self.new ≡ self.old) }
        ensures fewer { (other : AnyMode) → count_of self.new.rows client other ≤ count_of self.old.rows client other }
        ensures spare { self.old.spare ≤ self.new.spare }
    {
        let Some(k) = rows::place(&self.rows, client, mode) else {
            return false;
        };
        if self.rows[k].count == 1 {
            self.rows.remove(k);
        } else {
            self.rows[k].count -= 1;
        }
        true
    }

    /// Turns one lock of the first mode into one of the second, where the client has one.
    pub fn swap(&mut self, client: u16, gives_up: Mode, mode: Mode) -> bool
        requires spare { 1 ≤ self.old.spare }
        requires count { count_of self.old.rows client mode < most_locks }
        ensures swapped { result ≡ not (count_of self.old.rows client gives_up == 0) }
        ensures rows { OnTrue result (self.new.rows ≡ add_lock (take_lock self.old.rows client gives_up) client mode) }
        ensures unchanged { OnFalse result (self.new ≡ self.old) }
        ensures total { locks_in self.new.rows ≡ locks_in self.old.rows }
        ensures spare { self.old.spare ≤ self.new.spare + 1 }
    {
        if !self.take(client, gives_up) {
            return false;
        }
        self.add(client, mode);
        true
    }

    /// Drops all locks of the client, and answers how many.
    pub fn drop_all(&mut self, client: u16) -> u64
        ensures dropped { result ≡ locks_of self.old.rows client }
        ensures rows { self.new.rows ≡ without_client self.old.rows client }
        ensures total { locks_in self.old.rows ≡ locks_in self.new.rows + result }
        ensures spare { self.old.spare ≤ self.new.spare }
    {
        let dropped = rows::locks(&self.rows, client);
        self.rows.retain(|row| row.client != client);
        dropped
    }
}
