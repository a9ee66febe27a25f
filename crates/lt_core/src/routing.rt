// Routing: the way of asks and tells to the desk, and the links that they leave.
ghost use Rattle.std.specs.Prelude.{◌≡◌, ◌+◌, ◌≤◌, ◌<◌, ℕ, length, None};
ghost use Rattle.lt_modes.specs.Routing.{route, sent_on, Goes, reversed, way, learn, dealt};
ghost use Rattle.lt_desk.specs.LetterSeen.{parked_seen};
ghost use Rattle.lt_desk.specs.DeskData.{FitsOut};
ghost use Rattle.lt_link.specs.Routes.{way_of};
ghost use Rattle.lt_core.specs.CoreData.{Does, HasRoom, waiting_here};
ghost use Rattle.lt_core.specs.Steps.{ask_count};

use crate::one_set::Core;
use lt_desk::{Desk, Letter, Out, Parked, Post};
use lt_link::{Kind, Route};
use lt_modes::{Link, Stamp};

impl Core {
    /// The ask or the tell is dealt with, parked or sent on.
    #[inline(always)]
    pub(crate) fn route(&mut self, by_hoped: bool, item: Parked, stamp: Stamp, out: &mut Out)
        requires node { stamp.node ≡ self.old.node }
        requires rows { waiting_here self.old.state + 1 ≤ self.old.room }
        requires parked { 1 ≤ self.old.parked_room }
        requires fits { FitsOut (route self.old.set stamp by_hoped (parked_seen item) self.old.state) out.old }
        ensures does { Does (route self.old.set stamp by_hoped (parked_seen item) self.old.state) self.old out.old self.new out.new }
        ensures room { (k clock : ℕ) → HasRoom (k + 1) clock self.old → HasRoom k clock self.new }
    {
        if let Some(desk) = &mut self.desk {
            deal(desk, item);
            return;
        }
        match self.way(by_hoped, &item) {
            Route::Park => self.parked.push_back_reserved(item),
            Route::Firm(to) => self.send_on(to, false, item, stamp, out),
            Route::Hoped(to) => self.send_on(to, true, item, stamp, out),
        }
    }

    // The way of an ask or a tell from here, where the desk isn't here.
    fn way(&self, by_hoped: bool, item: &Parked) -> Route
        ensures { way_of result ≡ way self.now.node by_hoped (parked_seen item.now) self.now.state }
    {
        let kind = match item {
            Parked::Ask(ask) => Kind::Ask {
                stamp: ask.stamp,
                by_hoped,
                older_taking: self.pending.is_behind(ask),
            },
            Parked::Tell(_) => Kind::Tell,
        };
        self.links.route(kind)
    }

    // The ask or the tell goes to this node.
    #[inline(always)]
    fn send_on(&mut self, to: u8, marked: bool, item: Parked, stamp: Stamp, out: &mut Out)
        requires node { stamp.node ≡ self.old.node }
        requires fits { FitsOut (sent_on self.old.set stamp (parked_seen item) self.old.state (Goes to marked)) out.old }
        ensures does { Does (sent_on self.old.set stamp (parked_seen item) self.old.state (Goes to marked)) self.old out.old self.new out.new }
        ensures room { (k clock : ℕ) → HasRoom k clock self.old → HasRoom k clock self.new }
    {
        let link = self.firm();
        self.reverse(&item);
        let letter = Letter {
            stamp,
            set: self.set,
            link,
            body: item.into_body(marked),
        };
        out.push_letter(Post { to, letter });
    }

    // Path reversal: a taking ask of another node that was sent on becomes the hoped link.
    fn reverse(&mut self, item: &Parked)
        ensures { self.new ≡ record self.old { state = reversed self.old.node (parked_seen item.now) self.old.state } }
    {
        if let Parked::Ask(ask) = item {
            self.links.reverse(ask.node, ask.mode, ask.stamp);
        }
    }

    /// A link with a greater epoch becomes firm, and then nothing is hoped.
    pub(crate) fn learn(&mut self, link: Link)
        ensures core { self.new ≡ record self.old { state = learn link self.old.state } }
        ensures room { (k clock : ℕ) → HasRoom k clock self.old → HasRoom k clock self.new }
    {
        self.links.learn(link.node, link.epoch);
    }
}

/// The desk deals with an ask or a tell.
#[inline(always)]
pub(crate) fn deal(desk: &mut Desk, item: Parked)
    requires room { length desk.old.desk.queue + ask_count (parked_seen item) ≤ desk.old.room }
    ensures desk { desk.new.desk ≡ dealt desk.old.desk (parked_seen item) }
    ensures queue { length desk.new.desk.queue ≡ length desk.old.desk.queue + ask_count (parked_seen item) }
    ensures numbers { (desk.new.desk.epoch ≡ desk.old.desk.epoch) × (desk.new.desk.number ≡ desk.old.desk.number) }
    ensures room { desk.new.room ≡ desk.old.room }
    ensures spare { desk.old.spare ≤ desk.new.spare }
{
    match item {
        Parked::Ask(ask) => desk.enter(ask),
        Parked::Tell(tell) => {
            desk.tell(tell.node, tell.modes, tell.pending.as_ref(), tell.stamp);
        }
    }
}
