ghost use Rattle.std.specs.Prelude.{◌≡◌, ◌<◌, ◌+◌, ◌^◌, length, IsTrue, IfOk, OnOk, OnErr};
ghost use Rattle.lt_modes.specs.declared.moves.Step.TheVariants.{Act, Take};
ghost use Rattle.lt_spec.specs.World.{is_enabled};
ghost use Rattle.lt_desk.specs.LetterSeen.{letter_seen};
ghost use Rattle.lt_node.specs.NodeData.{RoomToTake};
ghost use Rattle.lt_node.specs.Touched.{RoomToAct};
ghost use Rattle.lt_inbox.specs.Mail.{SameLetters};
ghost use Rattle.lt_world.specs.Fields.{CanAct, CanTake, IsAfterRun, world_in, IsReserved, step_of, OnlyMemory, InboxRoom, node_at};
ghost use Rattle.lt_world.specs.declared.reserved.Reserved.TheVariants.{Acting, Taking};

use super::Network;
use crate::choice::Choice;
use crate::reserved::Reserved;
use lt_desk::{Letter, Out};
use lt_inbox::Inboxes;
use lt_merge::Run;
use lt_modes::Step;
use lt_script::Script;
use std::alloc::AllocError;

// Room for one move, before it is made.
impl Network {
    /// Makes room for the move; a letter that it takes is in hand then. Where memory is refused, no letter moved.
    pub(crate) fn reserve(
        &mut self,
        script: &Script,
        choice: Choice,
    ) -> Result<Reserved, AllocError>
        requires holds { IsAfterRun script.now self.old }
        requires enabled { IsTrue (is_enabled script.now (world_in script.now self.old) choice.node choice.step) }
        requires few { length self.old.run.entries + 1 < 2 ^ 62 }
        ensures reserved { IfOk result (IsReserved script.now self.new choice.node) }
        ensures step { IfOk result (λ reserved. step_of reserved ≡ choice.step) }
        ensures err { OnErr result (IsAfterRun script.now self.new) }
        ensures entries { self.new.run.entries ≡ self.old.run.entries }
    {
        match choice.step {
            Step::Act(client) => {
                self.reserve_act(script, choice.node, client)?;
                Ok(Reserved::Acting { client })
            }
            Step::Take(sender) => {
                let letter = self.open_take(script, choice.node, sender)?;
                Ok(Reserved::Taking { sender, letter })
            }
        }
    }

    // Makes room for the next command of a client of this node.
    pub(super) fn reserve_act(
        &mut self,
        script: &Script,
        node: u8,
        client: u16,
    ) -> Result<(), AllocError>
        requires holds { IsAfterRun script.now self.old }
        requires enabled { IsTrue (is_enabled script.now (world_in script.now self.old) node (Act client)) }
        requires few { length self.old.run.entries + 1 < 2 ^ 62 }
        ensures reserved { OnOk result (IsReserved script.now self.new node (Acting client)) }
        ensures err { OnErr result (IsAfterRun script.now self.new) }
        ensures entries { self.new.run.entries ≡ self.old.run.entries }
    {
        self.reserve_command(node, client)
    }

    // Takes the front letter from the sender to this node in hand, with room for the node to take it. Where memory is
    // refused, it goes back.
    pub(super) fn open_take(
        &mut self,
        script: &Script,
        node: u8,
        sender: u8,
    ) -> Result<Letter, AllocError>
        requires holds { IsAfterRun script.now self.old }
        requires enabled { IsTrue (is_enabled script.now (world_in script.now self.old) node (Take sender)) }
        requires few { length self.old.run.entries + 1 < 2 ^ 62 }
        ensures reserved { IfOk result (λ letter. IsReserved script.now self.new node (Taking sender letter)) }
        ensures err { OnErr result (IsAfterRun script.now self.new) }
        ensures entries { self.new.run.entries ≡ self.old.run.entries }
    {
        let mut letter = self.inboxes.pop_front(sender, node);
        if let Err(error) = self.reserve_letter(node, &mut letter) {
            self.inboxes.put_front(sender, node, letter);
            return Err(error);
        }
        Ok(letter)
    }

    /// Leaves a move for which room was made: a letter in hand goes back.
    pub(crate) fn leave(&mut self, script: &Script, node: u8, reserved: Reserved)
        requires { IsReserved script.now self.old node reserved }
        ensures holds { IsAfterRun script.now self.new }
        ensures entries { self.new.run.entries ≡ self.old.run.entries }
    {
        if let Reserved::Taking { sender, letter } = reserved {
            self.inboxes.put_front(sender, node, letter);
        }
    }

    // Makes room for it in the node, and for what it sends out.
    fn reserve_command(&mut self, node: u8, client: u16) -> Result<(), AllocError>
        requires node { node < length self.old.nodes.items }
        requires acts { CanAct (node_at self.old.nodes.items node) client }
        ensures nodes { OnlyMemory node self.old.nodes.items self.new.nodes.items }
        ensures letters { SameLetters self.old.inboxes self.new.inboxes }
        ensures entries { self.new.run.entries ≡ self.old.run.entries }
        ensures out { (self.new.out.posts ≡ self.old.out.posts) × (self.new.out.events ≡ self.old.out.events) }
        ensures room { OnOk result (RoomToAct client (node_at self.new.nodes.items node) self.new.out) }
        ensures send { OnOk result (InboxRoom self.new.inboxes self.new.run self.new.out) }
    {
        self.nodes[usize::from(node)].reserve(client, &mut self.out)?;
        reserve_all(&mut self.inboxes, &mut self.run, &self.out)
    }

    // Makes room for this node to take the letter.
    pub(super) fn reserve_letter(&mut self, node: u8, letter: &mut Letter) -> Result<(), AllocError>
        requires node { node < length self.old.nodes.items }
        requires takes { CanTake (node_at self.old.nodes.items node) (letter_seen letter.old) }
        ensures nodes { OnlyMemory node self.old.nodes.items self.new.nodes.items }
        ensures letters { SameLetters self.old.inboxes self.new.inboxes }
        ensures entries { self.new.run.entries ≡ self.old.run.entries }
        ensures out { (self.new.out.posts ≡ self.old.out.posts) × (self.new.out.events ≡ self.old.out.events) }
        ensures letter { letter_seen letter.new ≡ letter_seen letter.old }
        ensures room { OnOk result (RoomToTake (node_at self.new.nodes.items node) letter.new self.new.out) }
        ensures send { OnOk result (InboxRoom self.new.inboxes self.new.run self.new.out) }
    {
        self.nodes[usize::from(node)].reserve_for(letter, &mut self.out)?;
        reserve_all(&mut self.inboxes, &mut self.run, &self.out)
    }
}

// Makes room for what a node sends out, for which `out` has room.
#[inline(always)]
fn reserve_all(inboxes: &mut Inboxes, run: &mut Run, out: &Out) -> Result<(), AllocError>
    ensures letters { SameLetters inboxes.old inboxes.new }
    ensures entries { run.new.entries ≡ run.old.entries }
    ensures send { OnOk result (InboxRoom inboxes.new run.new out.now) }
{
    inboxes.reserve(out.post_room())?;
    run.reserve(out.event_room())
}
