ghost use Rattle.std.specs.Prelude.{◌+◌, ◌<◌, ◌^◌, IsTrue};
ghost use Rattle.lt_modes.specs.Fits.{fits, numbers_of};
ghost use Rattle.lt_desk.specs.LetterSeen.{letter_seen};
ghost use Rattle.lt_spec.specs.NodeMove.{node_take};
ghost use Rattle.lt_node.specs.NodeData.{NodeDoes, state_of, RoomToTake};
ghost use Rattle.lt_node.specs.Touched.{leaves_room_to_take};

use crate::node::Node;
use lt_desk::{Letter, Out};

impl Node {
    /// Takes the letter.
    #[inline(always)]
    pub fn take(&mut self, letter: Letter, out: &mut Out)
        requires fits { IsTrue (fits (numbers_of self.old.script) self.old.me self.old.clock ((state_of self.old).set letter.set) (letter_seen letter)) }
        requires within { IsTrue (leaves_room_to_take (state_of self.old) (letter_seen letter)) }
        requires room { RoomToTake self.old letter out.old }
        requires clock { self.old.clock + 1 < 2 ^ 62 }
        ensures does { NodeDoes (node_take self.old.me (letter_seen letter) (state_of self.old)) self.old out.old self.new out.new }
    {
        let stamp = self.stamp_of_take(&letter);
        self.clock = stamp.clock;
        self.sets.take(letter, stamp, out);
    }
}
