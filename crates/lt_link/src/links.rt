ghost use Rattle.std.specs.Prelude.{◌≡◌, Bool};
ghost use Rattle.lt_modes.specs.declared.ask.Ask.{Ask as AnyAsk};
ghost use Rattle.lt_modes.specs.State.{SetState, Desk, Parked, ParkedAsk};
ghost use Rattle.lt_modes.specs.Routing.{learn, way, reversed};
ghost use Rattle.lt_modes.specs.Taking.{take_token};
ghost use Rattle.lt_modes.specs.HandingOver.{without_desk};
ghost use Rattle.lt_link.specs.LinksData.{first_links, with_link, links_of, with_links};
ghost use Rattle.lt_link.specs.Routes.{route_of, unmarked_route, way_of, IsKindOf, IsAskFrom};

use crate::kind::{Kind, Route};
use lt_modes::{Hoped, Link, Mode, Stamp};
use std::marker::Model;

/// The links of one node for one lock set.
#[derive(Clone, Copy, Debug, PartialEq, Eq)]
pub struct Links {
    me: u8,
    firm: Link,
    hoped: Option<Hoped>,
}

impl Model for Links {
    ghost use Rattle.lt_link.specs.LinksData.{LinksData};

    ghost Value = { LinksData };

    ghost view = { λ l. record { me = l.me; firm = l.firm; hoped = l.hoped } };

    ghost inverse = { λ l. record { me = l.me; firm = l.firm; hoped = l.hoped } };
}

impl Links {
    /// The links of node `me` at the start: the token is at node 0.
    pub fn new(me: u8) -> Links
        ensures { result ≡ first_links me }
    {
        Links {
            me,
            firm: Link { node: 0, epoch: 0 },
            hoped: None,
        }
    }

    /// The node that keeps the links.
    pub fn me(&self) -> u8
        ensures { result ≡ self.now.me }
    {
        self.me
    }

    /// Takes over the link of a letter, where it is newer.
    pub fn learn(&mut self, node: u8, epoch: u64)
        ensures me { self.new.me ≡ self.old.me }
        ensures learnt { (s : SetState) → with_links self.new s ≡ learn (record { node = node; epoch = epoch }) (with_links self.old s) }
    {
        if epoch > self.firm.epoch {
            self.set(node, epoch);
        }
    }

    /// The token went to this node with this epoch, or came here with it.
    pub fn set(&mut self, node: u8, epoch: u64)
        ensures links { self.new ≡ with_link self.old node epoch }
        ensures gone { (s : SetState) → links_of self.old.me (without_desk (with_links self.old s) node epoch) ≡ self.new }
        ensures come { (desk : Desk) (s : SetState) → desk.epoch ≡ epoch → links_of self.old.me (take_token node desk (with_links self.old s)) ≡ self.new }
    {
        self.firm = Link { node, epoch };
        self.hoped = None;
    }

    /// The node and the epoch of the firm link.
    pub fn firm(&self) -> (u8, u64)
        ensures { result ≡ (self.now.firm.node, self.now.firm.epoch) }
    {
        (self.firm.node, self.firm.epoch)
    }

    /// The way of an ask or a tell, where the desk isn't here.
    pub fn route(&self, kind: Kind) -> Route
        ensures route { result ≡ route_of self.now kind }
        ensures way { (marked : Bool) (item : Parked) (s : SetState) → IsKindOf kind marked item s → way_of result ≡ way self.now.me marked item (with_links self.now s) }
    {
        if self.firm.node == self.me {
            return Route::Park;
        }
        match kind {
            Kind::Ask {
                by_hoped: true,
                older_taking: true,
                ..
            } => Route::Park,
            Kind::Ask {
                by_hoped: false,
                stamp,
                ..
            } => self.unmarked_route(stamp),
            _ => Route::Firm(self.firm.node),
        }
    }

    // The way of an ask that didn't come by a hoped link, where the firm link names another node.
    fn unmarked_route(&self, stamp: Stamp) -> Route
        ensures { result ≡ unmarked_route self.now.firm.node self.now.hoped stamp }
    {
        match self.hoped {
            Some(hoped) if stamp.is_newer(hoped.stamp) => Route::Hoped(hoped.node),
            _ => Route::Firm(self.firm.node),
        }
    }

    /// Path reversal, after an ask was sent on: the token will go to its node, if the ask is taking.
    pub fn reverse(&mut self, node: u8, mode: Mode, stamp: Stamp)
        ensures me { self.new.me ≡ self.old.me }
        ensures reversed { (ask : AnyAsk) (s : SetState) → IsAskFrom node mode stamp ask → with_links self.new s ≡ reversed self.old.me (ParkedAsk ask) (with_links self.old s) }
    {
        if mode.taking() && node != self.me {
            self.hoped = Some(Hoped { node, stamp });
        }
    }
}
