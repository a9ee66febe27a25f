ghost use Rattle.std.specs.Prelude.{◌≡◌, ◌≤◌, IsOk, OnOk};
ghost use Rattle.lt_desk.specs.LetterSeen.{letter_seen, asks_in, RoomIn, places_in, body_spare};

use crate::Desk;
use crate::parked::Tell;
use lt_modes::{Ask, Link, ModeSet, Stamp};
use std::alloc::AllocError;

/// What a letter says.
#[derive(Drop)]
pub enum Body {
    /// An ask on its way to the desk, marked where it came by a hoped link.
    Ask { ask: Ask, by_hoped: bool },
    Tell(Tell),
    /// The mode that the ask wants.
    Copy(Ask),
    Token(Desk),
    Freeze(News),
}

/// Frozen modes, with their freeze number.
#[derive(Clone, Copy)]
pub struct News {
    pub number: u64,
    pub modes: ModeSet,
}

/// A letter from one node to another.
#[derive(Drop)]
pub struct Letter {
    pub stamp: Stamp,
    pub set: u32,
    /// The sender's firm link.
    pub link: Link,
    pub body: Body,
}

/// A letter with the node that it goes to.
#[derive(Drop)]
pub struct Post {
    pub to: u8,
    pub letter: Letter,
}

impl Letter {
    /// How many asks it brings.
    pub fn asks(&self) -> u32
        ensures { result ≡ asks_in self.now.body }
    {
        match &self.body {
            Body::Ask { .. } | Body::Copy(_) => 1,
            Body::Token(desk) => desk.len(),
            Body::Tell(_) | Body::Freeze(_) => 0,
        }
    }

    /// Makes room for so many asks in the desk that it brings.
    pub fn reserve(&mut self, asks: u32) -> Result<(), AllocError>
        ensures letter { letter_seen self.new ≡ letter_seen self.old }
        ensures asks { asks_in self.new.body ≡ asks_in self.old.body }
        ensures room { OnOk result (RoomIn asks self.new.body) }
        ensures kept { (places_in self.old.body ≤ places_in self.new.body) × (body_spare self.old.body ≤ body_spare self.new.body) }
        ensures full { RoomIn asks self.old.body → IsOk result }
    {
        match &mut self.body {
            Body::Token(desk) => desk.reserve_for(asks),
            _ => Ok(()),
        }
    }
}
