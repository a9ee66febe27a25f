// Serving: how the desk's node serves the asks in its queue, one after the other.
ghost use Rattle.std.specs.Prelude.{◌≡◌, ◌+◌, ◌≤◌, ◌<◌, length, remove};
ghost use Rattle.lt_modes.specs.Modes.{add_lock, locks_in};
ghost use Rattle.lt_modes.specs.Serving.{queue_of, put_queue, ask_at, answer_event, serve_one, serve_copy, serve, give_up};
ghost use Rattle.lt_modes.specs.HandingOver.{next_draw};
ghost use Rattle.lt_held.specs.HeldData.{most_locks};
ghost use Rattle.lt_desk.specs.Picks.{picked, IsInQueue};
ghost use Rattle.lt_desk.specs.DeskData.{FitsOut};
ghost use Rattle.lt_core.specs.CoreData.{Does, HasRoom};
ghost use Rattle.lt_core.specs.Steps.{answer_ask, grant_ask, void_ask};

use crate::one_set::Core;
use lt_desk::{Body, Out, Pick};
use lt_held::{Held, law_rows};
use lt_modes::{Ask, Event, Mode, Stamp};

impl Core {
    /// Services until there is none; answers the place of the ask that draws the desk then.
    pub(crate) fn serve(&mut self, stamp: Stamp, out: &mut Out) -> Option<u32>
        requires node { stamp.node ≡ self.old.node }
        requires room { HasRoom 0 stamp.clock self.old }
        requires fits { FitsOut (serve self.old.set stamp self.old.state) out.old }
        ensures does { Does (serve self.old.set stamp self.old.state) self.old out.old self.new out.new }
        ensures room { HasRoom 0 stamp.clock self.new }
        ensures draw { result ≡ next_draw self.new.node self.new.state }
    {
        let mut next = self.pick();
        while let Some(k) = next.service() {
            self.serve_one(k, stamp, out);
            next = self.pick();
        }
        next.draw()
    }

    // What the desk does next, where it is here.
    #[inline(always)]
    fn pick(&self) -> Pick
        ensures next { result ≡ picked self.now.node self.now.state }
        ensures within { IsInQueue (length (queue_of self.now.state)) result }
    {
        match &self.desk {
            Some(desk) => desk.pick(
                self.links.me(),
                &self.held,
                self.pending.stamps(),
                self.marks.clients(),
            ),
            None => Pick::Nothing,
        }
    }

    // Serves the ask at a place of the queue.
    fn serve_one(&mut self, k: u32, stamp: Stamp, out: &mut Out)
        requires node { stamp.node ≡ self.old.node }
        requires within { k < length (queue_of self.old.state) }
        requires room { HasRoom 0 stamp.clock self.old }
        requires fits { FitsOut (serve_one self.old.set stamp k self.old.state) out.old }
        ensures does { Does (serve_one self.old.set stamp k self.old.state) self.old out.old self.new out.new }
        ensures room { HasRoom 0 stamp.clock self.new }
    {
        if self.queued(k).node == stamp.node {
            let ask = self.take_out(k);
            self.answer(&ask, out);
        } else {
            self.send_copy(k, stamp, out);
        }
    }

    // Takes the ask at a place out of the queue.
    fn take_out(&mut self, k: u32) -> Ask
        requires { k < length (queue_of self.old.state) }
        ensures ask { result ≡ ask_at self.old.state k }
        ensures core { self.new ≡ record self.old { state = record self.old.state { desk = put_queue (remove (queue_of self.old.state) k) self.old.state.desk } } }
    {
        match &mut self.desk {
            Some(desk) => desk.grant(k),
            None => unreachable!(),
        }
    }

    /// The ask's client gets the lock and waits no more, unless the ask was given up.
    #[inline(always)]
    pub(crate) fn answer(&mut self, ask: &Ask, out: &mut Out)
        requires room { 0 < self.old.room }
        requires locks { locks_in self.old.state.held + 1 ≤ most_locks }
        requires fits { FitsOut (answer_ask self.old.set ask.now self.old.state) out.old }
        ensures does { Does (answer_ask self.old.set ask.now self.old.state) self.old out.old self.new out.new }
        ensures room { (self.old.room ≤ self.new.room + 1) × (self.new.parked_room ≡ self.old.parked_room) }
        ensures tells { self.new.tell_room ≡ self.old.tell_room }
        ensures locks { locks_in self.new.state.held ≤ locks_in self.old.state.held + 1 }
    {
        if self.marks.has(ask.client) {
            self.answer_void(ask, out);
        } else {
            self.grant(ask, out);
        }
    }

    // The ask was given up: its client gets nothing, and can ask again.
    #[inline(never)]
    fn answer_void(&mut self, ask: &Ask, out: &mut Out)
        requires fits { FitsOut (void_ask self.old.set ask.now self.old.state) out.old }
        ensures does { Does (void_ask self.old.set ask.now self.old.state) self.old out.old self.new out.new }
        ensures room { (self.new.room ≡ self.old.room) × (self.new.parked_room ≡ self.old.parked_room) }
        ensures tells { self.new.tell_room ≡ self.old.tell_room }
    {
        self.pending.forget(ask.stamp);
        self.marks.remove(ask.client);
        out.push_event(Event::Void {
            client: ask.client,
            set: self.set,
            mode: ask.mode,
        });
    }

    // The ask's client gets the lock and waits no more.
    #[inline(always)]
    fn grant(&mut self, ask: &Ask, out: &mut Out)
        requires room { 0 < self.old.room }
        requires locks { locks_in self.old.state.held + 1 ≤ most_locks }
        requires fits { FitsOut (grant_ask self.old.set ask.now self.old.state) out.old }
        ensures does { Does (grant_ask self.old.set ask.now self.old.state) self.old out.old self.new out.new }
        ensures room { (self.old.room ≤ self.new.room + 1) × (self.new.parked_room ≡ self.old.parked_room) }
        ensures tells { self.new.tell_room ≡ self.old.tell_room }
        ensures locks { locks_in self.new.state.held ≤ locks_in self.old.state.held + 1 }
    {
        self.pending.forget(ask.stamp);
        give(&mut self.held, ask.client, ask.mode, ask.gives_up);
        out.push_event(answer_event(self.set, ask));
    }

    // The node of the ask at a place of the queue is sent the mode, and owes word of it.
    fn send_copy(&mut self, k: u32, stamp: Stamp, out: &mut Out)
        requires within { k < length (queue_of self.old.state) }
        requires room { 0 < self.old.room }
        requires fits { FitsOut (serve_copy self.old.set stamp k (ask_at self.old.state k) self.old.state) out.old }
        ensures does { Does (serve_copy self.old.set stamp k (ask_at self.old.state k) self.old.state) self.old out.old self.new out.new }
        ensures room { (self.old.room ≤ self.new.room + 1) × (self.new.parked_room ≡ self.old.parked_room) }
        ensures tells { self.new.tell_room ≡ self.old.tell_room }
    {
        let Some(desk) = &mut self.desk else {
            unreachable!()
        };
        let ask = desk.copy(k);
        out.push_event(Event::Copy {
            set: self.set,
            to: ask.node,
            client: ask.client,
            mode: ask.mode,
        });
        let post = self.post(ask.node, Body::Copy(ask), stamp);
        out.push_letter(post);
    }
}

/// The client gets a lock, and gives up one where it changes a mode.
pub(crate) fn give(held: &mut Held, client: u16, mode: Mode, gives_up: Option<Mode>)
    requires spare { 1 ≤ held.old.spare }
    requires locks { locks_in held.old.rows + 1 ≤ most_locks }
    ensures rows { held.new.rows ≡ add_lock (give_up held.old.rows client gives_up) client mode }
    ensures total { locks_in held.new.rows ≤ locks_in held.old.rows + 1 }
    ensures spare { held.old.spare ≤ held.new.spare + 1 }
{
    if let Some(gives_up) = gives_up {
        held.take(client, gives_up);
    }
    law_rows();
    held.add(client, mode);
}

/// The line that tells that the ask is granted.
fn answer_event(set: u32, ask: &Ask) -> Event
    ensures { result ≡ answer_event set ask.now }
{
    match ask.gives_up {
        None => Event::Grant {
            client: ask.client,
            set,
            mode: ask.mode,
        },
        Some(gives_up) => Event::Change {
            client: ask.client,
            set,
            gives_up,
            mode: ask.mode,
        },
    }
}
