ghost use Rattle.std.specs.Prelude.{◌≡◌, ◌<◌, ◌∷◌, ◌++◌, [], IsTrue, IfOk, IfErr};
ghost use Rattle.lt_spec.specs.World.{is_enabled, logged, moves_of};
ghost use Rattle.lt_world.specs.Fields.{world_of};
ghost use Rattle.lt_world.specs.Ready.{AreWorldParts, world_with};

use super::turns::note_turns;
use super::{World, count_move};
use crate::choice::Choice;
use crate::network::Network;
use crate::reserved::Reserved;
use lt_script::Script;
use lt_turns::Turns;
use std::marker::Model;

/// A world with room for one move, which therefore can't fail.
#[derive(Drop)]
pub struct Ready {
    parts: Parts,
    choice: Choice,
    reserved: Reserved,
}

// What a world is made of, while room is made for a move and the move is made or left.
#[derive(Drop)]
struct Parts {
    script: Script,
    limit: u32,
    network: Network,
    moves: Vec<u32>,
    turns: Turns,
    most: u32,
}

impl Model for Ready {
    ghost use Rattle.lt_world.specs.Ready.{ReadyData, HasRoomToMove, world_with};

    ghost Value = { ReadyData };

    ghost view = { λ r. record {
      world = world_with r.parts;
      choice = r.choice;
    } };

    ghost invariant = { λ r. HasRoomToMove r.parts r.choice r.reserved };
}

impl World {
    /// Makes room for an enabled move of a node that has made fewer moves than the limit. Where memory is refused, the
    /// world comes back as it was.
    pub fn reserve(self, choice: Choice) -> Result<Ready, World>
        requires enabled { IsTrue (is_enabled self.script (world_of self) choice.node choice.step) }
        requires room { moves_of choice.node self.run < self.limit }
        ensures ok { IfOk result (λ ready. ready ≡ record { world = self; choice = choice }) }
        ensures err { IfErr result (λ world. world ≡ self) }
    {
        let mut parts = self.into_parts();
        match parts.network.reserve(&parts.script, choice) {
            Ok(reserved) => Ok(Ready {
                parts,
                choice,
                reserved,
            }),
            Err(_) => Err(parts.whole()),
        }
    }

    fn into_parts(self) -> Parts
        ensures whole { AreWorldParts result }
        ensures same { world_with result ≡ self }
    {
        let World {
            script,
            limit,
            network,
            moves,
            turns,
            most,
        } = self;
        Parts {
            script,
            limit,
            network,
            moves,
            turns,
            most,
        }
    }
}

impl Ready {
    /// Makes the move.
    pub fn make(self) -> World
        ensures { result ≡ record self.world { run = self.world.run ++ logged self.world.script (world_of self.world) self.choice.node self.choice.step ∷ [] } }
    {
        let Ready {
            mut parts,
            choice,
            reserved,
        } = self;
        parts.network.make(&parts.script, choice.node, reserved);
        count_move(&mut parts.moves, &mut parts.most, choice.node);
        note_turns(&mut parts.turns, &parts.script, &parts.network, choice.step);
        parts.whole()
    }

    /// Leaves the move: the world as it was.
    pub fn leave(self) -> World
        ensures { result ≡ self.world }
    {
        let Ready {
            mut parts,
            choice,
            reserved,
        } = self;
        parts.network.leave(&parts.script, choice.node, reserved);
        parts.whole()
    }
}

impl Parts {
    // Puts them together again.
    fn whole(self) -> World
        requires { AreWorldParts self }
        ensures { result ≡ world_with self }
    {
        let Parts {
            script,
            limit,
            network,
            moves,
            turns,
            most,
        } = self;
        World {
            script,
            limit,
            network,
            moves,
            turns,
            most,
        }
    }
}
