// Taking: what a letter does at the node that takes it.
ghost use Rattle.std.specs.Prelude.{◌≡◌, ◌+◌, ◌≤◌, [], length, map, filter_map, fold};
ghost use Rattle.std.specs.VecDeque.{deque_capacity};
ghost use Rattle.lt_modes.specs.Fits.{ask_if};
ghost use Rattle.lt_modes.specs.Routing.{dealt};
ghost use Rattle.lt_modes.specs.Taking.{take_token, take_copy, take_freeze, arrive, take};
ghost use Rattle.lt_desk.specs.LetterSeen.{parked_seen, letter_seen};
ghost use Rattle.lt_desk.specs.DeskData.{FitsOut};
ghost use Rattle.lt_core.specs.CoreData.{Does, HasRoom, RoomForDesk, RoomForBody};

use crate::one_set::Core;
use crate::routing::deal;
use lt_desk::{Body, Desk, Letter, News, Out, Parked};
use lt_modes::{Ask, Stamp};
use std::collections::VecDeque;

impl Core {
    /// Takes a letter: one move.
    pub fn take(&mut self, letter: Letter, stamp: Stamp, out: &mut Out)
        requires node { stamp.node ≡ self.old.node }
        requires set { letter.set ≡ self.old.set }
        requires room { HasRoom 2 stamp.clock self.old }
        requires desk { RoomForBody stamp.clock self.old letter.body }
        requires fits { FitsOut (take stamp (letter_seen letter) self.old.state) out.old }
        ensures does { Does (take stamp (letter_seen letter) self.old.state) self.old out.old self.new out.new }
    {
        self.arrive(letter, stamp, out);
        self.finish(stamp, out);
    }

    // The node learns the letter's link, and then does what it says.
    fn arrive(&mut self, letter: Letter, stamp: Stamp, out: &mut Out)
        requires node { stamp.node ≡ self.old.node }
        requires set { letter.set ≡ self.old.set }
        requires room { HasRoom 2 stamp.clock self.old }
        requires desk { RoomForBody stamp.clock self.old letter.body }
        requires fits { FitsOut (arrive stamp (letter_seen letter) self.old.state) out.old }
        ensures does { Does (arrive stamp (letter_seen letter) self.old.state) self.old out.old self.new out.new }
        ensures room { HasRoom 1 stamp.clock self.new }
    {
        self.learn(letter.link);
        match letter.body {
            Body::Ask { ask, by_hoped } => self.route(by_hoped, Parked::Ask(ask), stamp, out),
            Body::Tell(tell) => self.route(false, Parked::Tell(tell), stamp, out),
            Body::Copy(ask) => self.take_copy(&ask, stamp, out),
            Body::Token(desk) => self.take_token(desk, stamp),
            Body::Freeze(news) => self.take_freeze(&news),
        }
    }

    // A copy answers its ask.
    fn take_copy(&mut self, ask: &Ask, stamp: Stamp, out: &mut Out)
        requires room { HasRoom 2 stamp.clock self.old }
        requires fits { FitsOut (take_copy self.old.set ask.now self.old.state) out.old }
        ensures does { Does (take_copy self.old.set ask.now self.old.state) self.old out.old self.new out.new }
        ensures room { HasRoom 1 stamp.clock self.new }
    {
        if self.desk.is_none() {
            self.charge = self.charge.with(ask.mode);
        }
        self.answer(ask, out);
    }

    // The desk comes here, and deals with the parked asks and tells in order.
    fn take_token(&mut self, mut desk: Desk, stamp: Stamp)
        requires node { stamp.node ≡ self.old.node }
        requires core { HasRoom 2 stamp.clock self.old }
        requires desk { RoomForDesk stamp.clock self.old desk }
        ensures state { self.new.state ≡ take_token self.old.node desk.desk self.old.state }
        ensures place { (self.new.node ≡ self.old.node) × (self.new.set ≡ self.old.set) }
        ensures room { HasRoom 1 stamp.clock self.new }
    {
        self.links.set(stamp.node, desk.epoch());
        deal_all(&mut desk, &mut self.parked);
        self.desk = Some(desk);
    }

    // A freeze is kept where its number is greater.
    fn take_freeze(&mut self, news: &News)
        ensures { self.new ≡ record self.old { state = take_freeze news.now.number news.now.modes self.old.state } }
    {
        if self.number < news.number {
            self.frozen = news.modes;
            self.number = news.number;
        }
    }
}

// The desk deals with these asks and tells in order.
fn deal_all(desk: &mut Desk, parked: &mut VecDeque<Parked>)
    requires room { length desk.old.desk.queue + length (filter_map ask_if (map parked_seen parked.old.items)) ≤ desk.old.room }
    ensures desk { desk.new.desk ≡ fold dealt desk.old.desk (map parked_seen parked.old.items) }
    ensures parked { (parked.new.items ≡ []) × (deque_capacity parked.new ≡ deque_capacity parked.old) }
    ensures queue { length desk.new.desk.queue ≡ length desk.old.desk.queue + length (filter_map ask_if (map parked_seen parked.old.items)) }
    ensures numbers { (desk.new.desk.epoch ≡ desk.old.desk.epoch) × (desk.new.desk.number ≡ desk.old.desk.number) }
    ensures room { desk.new.room ≡ desk.old.room }
    ensures spare { desk.old.spare ≤ desk.new.spare }
{
    while let Some(item) = parked.pop_front() {
        deal(desk, item);
    }
}
