ghost use Rattle.std.specs.Prelude.{◌≡◌, ◌≤◌, ◌<◌, ◌+◌, ◌^◌, ◌++◌, ◌∷◌, [], List, length, OnErr, IfOk, OnOk, slice_set};
ghost use Rattle.lt_modes.specs.declared.event.Event.{Event as AnyEvent};
ghost use Rattle.lt_modes.specs.declared.event.Event.TheVariants.{Grant, Change};
ghost use Rattle.lt_modes.specs.Script.{ScriptData};
ghost use Rattle.lt_spec.specs.Holdings.{holdings, times_held, wanted, owner_of, lines_of};
ghost use Rattle.lt_tally.specs.LockTable.{HasCell, IsTallied, waited_for, owner_at};

use crate::holding::Holding;
use crate::table::Table;
use lt_merge::Run;
use lt_modes::{Event, Link, Mode};
use lt_script::Script;
use std::alloc::{AllocError, Global};
use std::marker::Model;

/// What events come to: how many locks are held, what each client waits for, and where each set's token went
/// last.
#[derive(Debug)]
pub struct Tally {
    held: Table,
    waiting: Vec<Option<Holding>>,
    owners: Vec<Link>,
}

impl Model for Tally {
    ghost use Rattle.lt_tally.specs.LockTable.{Tally as TallyData};

    ghost Value = { TallyData };

    ghost view = { λ t. record { held = t.held; waiting = t.waiting.items; owners = t.owners.items } };
}

// Written out, so that all places which let a tally go call this.
impl Drop for Tally {
    fn drop(self) {
        let Tally {
            held,
            waiting,
            owners,
        } = self;
        drop(held);
        drop(waiting);
        drop(owners);
    }
}

impl Tally {
    /// What no events come to.
    pub fn new(alloc: Global, script: &Script) -> Result<Tally, AllocError>
        ensures { IfOk result (λ tally. IsTallied script.now tally []) }
    {
        Ok(Tally {
            held: Table::new(alloc, script)?,
            waiting: vec![in alloc; None; usize::from(script.clients())]?,
            owners: vec![in alloc; Link { node: 0, epoch: 0 }; script.sets() as usize]?,
        })
    }

    /// How many such locks are held.
    pub fn count(&self, lock: Holding) -> usize
        ensures { (script : ScriptData) → (events : List AnyEvent)
            → IsTallied script self.now events → HasCell script lock → result ≡ times_held (holdings script events) lock }
    {
        self.held.count(lock)
    }

    /// What the client waits for.
    pub fn wanted(&self, client: u16) -> Option<Holding>
        ensures { (script : ScriptData) → (events : List AnyEvent)
            → IsTallied script self.now events → client < length script.clients → result ≡ wanted client events }
    {
        waits_for(&self.waiting, client)
    }

    /// The node that the set's token went to last, with the epoch of that move.
    pub fn owner(&self, set: u32) -> Link
        ensures { (script : ScriptData) → (events : List AnyEvent)
            → IsTallied script self.now events → set < length script.sets → result ≡ owner_of set events }
    {
        owner_at(&self.owners, set)
    }

    /// Takes one event more into account. It fails where more locks are held than a number can say.
    #[inline(always)]
    pub fn apply(&mut self, script: &Script, event: Event) -> Result<(), AllocError>
        ensures applied { OnOk result ((events : List AnyEvent)
            → IsTallied script.now self.old events
            → IsTallied script.now self.new (events ++ event ∷ [])) }
        ensures full { OnErr result ((events : List AnyEvent)
            → IsTallied script.now self.old events → 2 ^ 64 ≤ length (holdings script.now events) + 1) }
    {
        match event {
            Event::Grant { client, set, mode } => self.grant(script, client, set, mode)?,
            Event::Wait { client, set, mode } => {
                self.wait(client, Some(Holding { client, set, mode }));
            }
            Event::Withdrawn { client, .. } => self.wait(client, None),
            Event::Try {
                client,
                set,
                mode,
                got,
            } => {
                if got {
                    self.held.add(script, Holding { client, set, mode })?;
                }
            }
            Event::Unlock { client, set, mode } => {
                self.held.take(script, Holding { client, set, mode });
            }
            Event::Change {
                client,
                set,
                gives_up,
                mode,
            } => self.change(script, client, set, gives_up, mode)?,
            Event::DropAll { other, set, .. } => self.held.drop_all(script, other, set),
            Event::Token { set, to, epoch } => self.own(set, Link { node: to, epoch }),
            Event::NotHeld { .. }
            | Event::Busy { .. }
            | Event::Withdraw { .. }
            | Event::Void { .. }
            | Event::Withheld { .. }
            | Event::Copy { .. }
            | Event::Freeze { .. } => {}
        }
        Ok(())
    }

    // Adds a lock, for which its client waits no more.
    #[inline(always)]
    fn grant(
        &mut self,
        script: &Script,
        client: u16,
        set: u32,
        mode: Mode,
    ) -> Result<(), AllocError>
        ensures granted { OnOk result ((events : List AnyEvent)
            → IsTallied script.now self.old events
            → IsTallied script.now self.new (events ++ Grant client set mode ∷ [])) }
        ensures full { OnErr result ((events : List AnyEvent)
            → IsTallied script.now self.old events → 2 ^ 64 ≤ length (holdings script.now events) + 1) }
    {
        self.held.add(script, Holding { client, set, mode })?;
        self.wait(client, None);
        Ok(())
    }

    // A lock of one mode becomes one of another.
    fn change(
        &mut self,
        script: &Script,
        client: u16,
        set: u32,
        gives_up: Mode,
        mode: Mode,
    ) -> Result<(), AllocError>
        ensures changed { OnOk result ((events : List AnyEvent)
            → IsTallied script.now self.old events
            → IsTallied script.now self.new (events ++ Change client set gives_up mode ∷ [])) }
        ensures full { OnErr result ((events : List AnyEvent)
            → IsTallied script.now self.old events → 2 ^ 64 ≤ length (holdings script.now events) + 1) }
    {
        let old = Holding {
            client,
            set,
            mode: gives_up,
        };
        self.held.take(script, old);
        self.grant(script, client, set, mode)
    }

    // The client now waits for this, or for nothing.
    #[inline(always)]
    fn wait(&mut self, client: u16, waiting: Option<Holding>)
        ensures { self.new ≡ record self.old { waiting = slice_set self.old.waiting client waiting } }
    {
        let place = usize::from(client);
        if place < self.waiting.len() {
            self.waiting[place] = waiting;
        }
    }

    // The set's token now went there.
    #[inline(always)]
    fn own(&mut self, set: u32, owner: Link)
        ensures { self.new ≡ record self.old { owners = slice_set self.old.owners set owner } }
    {
        let place = set as usize;
        if place < self.owners.len() {
            self.owners[place] = owner;
        }
    }
}

// What the client waits for, by this list.
fn waits_for(waiting: &[Option<Holding>], client: u16) -> Option<Holding>
    ensures { result ≡ waited_for waiting.now client }
{
    waiting.get(usize::from(client)).copied().flatten()
}

// Where the set's token went last, by this list.
fn owner_at(owners: &[Link], set: u32) -> Link
    ensures { result ≡ owner_at owners.now set }
{
    owners
        .get(set as usize)
        .copied()
        .unwrap_or(Link { node: 0, epoch: 0 })
}

/// What a run comes to.
pub fn tally_of(alloc: Global, script: &Script, run: &Run) -> Result<Tally, AllocError>
    ensures { IfOk result (λ tally. IsTallied script.now tally (lines_of run.now.entries)) }
{
    let mut tally = Tally::new(alloc, script)?;
    apply_run(&mut tally, script, run)?;
    Ok(tally)
}

// Takes the events of all moves into account. It fails only where a run has more events than a number can say.
fn apply_run(tally: &mut Tally, script: &Script, run: &Run) -> Result<(), AllocError>
    requires { IsTallied script.now tally.old [] }
    ensures applied { OnOk result (IsTallied script.now tally.new (lines_of run.now.entries)) }
    ensures full { OnErr result (2 ^ 64 ≤ length (lines_of run.now.entries) + 1) }
{
    for k in 0..run.len() {
        apply_all(tally, script, run.events(k))?;
    }
    Ok(())
}

// Takes the events into account, in order.
fn apply_all(tally: &mut Tally, script: &Script, events: &[Event]) -> Result<(), AllocError>
    ensures applied { OnOk result ((before : List AnyEvent)
        → IsTallied script.now tally.old before
        → IsTallied script.now tally.new (before ++ events.now)) }
    ensures full { OnErr result ((before : List AnyEvent)
        → IsTallied script.now tally.old before
        → 2 ^ 64 ≤ length before + length events.now + 1) }
{
    for event in events {
        tally.apply(script, *event)?;
    }
    Ok(())
}
