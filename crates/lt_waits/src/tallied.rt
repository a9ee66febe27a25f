ghost use Rattle.std.specs.Prelude.{◌≡◌, ◌<◌, IfOk, IfSome, length, nat_lt};
ghost use Rattle.std.specs.List.{list_any};
ghost use Rattle.lt_modes.specs.Modes.{modes_in_order};
ghost use Rattle.lt_spec.specs.Holdings.{lines_of, holdings, times_held, wanted};
ghost use Rattle.lt_waits.specs.Reasons.{want_of, bars_want, barring, is_barred};

use lt_merge::Run;
use lt_modes::{MODES, Mode};
use lt_script::Script;
use lt_tally::{Holding, Tally, tally_of};
use std::alloc::{AllocError, Global};
use std::marker::Model;

/// A run with what its lines come to: what each client wants, and which locks are held.
#[derive(Drop)]
pub(crate) struct Tallied<'a> {
    script: &'a Script,
    run: &'a Run,
    tally: Tally,
}

impl<'a> Model for Tallied<'a> {
    ghost use Rattle.lt_spec.specs.Holdings.{lines_of};
    ghost use Rattle.lt_tally.specs.LockTable.{IsTallied};
    ghost use Rattle.lt_waits.specs.Tallied.{TalliedData};

    ghost Value = { TalliedData };

    ghost view = { λ t. record { script = t.script.now; lines = lines_of t.run.now.entries } };

    ghost invariant = { λ t. IsTallied t.script.now t.tally (lines_of t.run.now.entries) };
}

impl<'a> Tallied<'a> {
    pub fn new(alloc: Global, script: &'a Script, run: &'a Run) -> Result<Tallied<'a>, AllocError>
        ensures { IfOk result (λ t. t ≡ record { script = script.now; lines = lines_of run.now.entries }) }
    {
        let tally = tally_of(alloc, script, run)?;
        Ok(Tallied { script, run, tally })
    }

    pub fn script(&self) -> &Script
        ensures { result.now ≡ self.now.script }
    {
        self.script
    }

    /// The lock for which the client waits.
    pub fn want(&self, client: u16) -> Option<Holding>
        requires { client < length self.now.script.clients }
        ensures want { result ≡ want_of self.now.script self.now.lines client }
        ensures within { IfSome result (λ want. want.set < length self.now.script.sets) }
    {
        let want = self.wanted(client)?;
        if want.set < self.script.sets() {
            Some(want)
        } else {
            None
        }
    }

    // The lock for which the client waits by the lines.
    fn wanted(&self, client: u16) -> Option<Holding>
        requires { client < length self.now.script.clients }
        ensures { result ≡ wanted client self.now.lines }
    {
        self.tally.wanted(client)
    }

    /// The modes of the other client's locks that conflict with what is wanted.
    pub fn barring(&self, alloc: Global, want: Holding, other: u16) -> Result<Vec<Mode>, AllocError>
        requires want { want.set < length self.now.script.sets }
        requires other { other < length self.now.script.clients }
        ensures { IfOk result (λ modes. modes.items ≡ barring self.now.script self.now.lines want other) }
    {
        let barring = MODES
            .iter()
            .copied()
            .filter(|mode| self.bars_want(want, other, *mode));
        barring.collect(alloc)
    }

    /// Whether the other client holds a lock that conflicts with what the client wants.
    pub fn is_barred(&self, client: u16, other: u16) -> bool
        requires client { client < length self.now.script.clients }
        requires other { other < length self.now.script.clients }
        ensures { result
            ≡ is_barred self.now.script self.now.lines (want_of self.now.script self.now.lines client) other }
    {
        match self.want(client) {
            Some(want) => self.is_barred_from(want, other),
            None => false,
        }
    }

    // Whether the other client holds a lock that conflicts with what is wanted.
    fn is_barred_from(&self, want: Holding, other: u16) -> bool
        requires want { want.set < length self.now.script.sets }
        requires other { other < length self.now.script.clients }
        ensures { result ≡ list_any (bars_want self.now.script self.now.lines want other) modes_in_order }
    {
        MODES.iter().any(|mode| self.bars_want(want, other, *mode))
    }

    // Whether the other client holds a lock of this mode that conflicts with what is wanted.
    fn bars_want(&self, want: Holding, other: u16, mode: Mode) -> bool
        requires want { want.set < length self.now.script.sets }
        requires other { other < length self.now.script.clients }
        ensures { result ≡ bars_want self.now.script self.now.lines want other mode }
    {
        let lock = Holding {
            client: other,
            set: want.set,
            mode,
        };
        want.mode.conflicts(mode) && self.is_held(lock)
    }
    // Whether by the lines such a lock is held.
    fn is_held(&self, lock: Holding) -> bool
        requires client { lock.client < length self.now.script.clients }
        requires set { lock.set < length self.now.script.sets }
        ensures { result ≡ nat_lt 0 (times_held (holdings self.now.script self.now.lines) lock) }
    {
        self.tally.count(lock) > 0
    }
}
