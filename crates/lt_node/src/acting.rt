ghost use Rattle.std.specs.Prelude.{◌≡◌, ◌+◌, ◌≤◌, ◌<◌, ◌&&◌, ◌^◌, length, Some, IsTrue};
ghost use Rattle.lt_core.specs.CoreData.{answer_of, move_of};
ghost use Rattle.lt_spec.specs.NodeMove.{home, is_free_at, has_command, next_command, node_act, one_made, at_clock, obey, touched, related, locks_in_sets};
ghost use Rattle.lt_spec.specs.Script.{HasTargets};
ghost use Rattle.lt_spec.specs.declared.limits.TheConstants.{MAX_COMMANDS_OF_SERVICE};
ghost use Rattle.lt_modes.specs.declared.command.Command.TheVariants as commands;
ghost use Rattle.lt_node.specs.NodeData.{NodeDoes, IsNode, AreReady, IsSetReady, KeepsClient, state_of, core_at};
ghost use Rattle.lt_node.specs.Touched.{RoomToAct, leaves_room_to_act, touched_sets, drops_few};
ghost use Rattle.lt_node.specs.Clients.{answer_of_act, answer_to};

use crate::family;
use crate::node::Node;
use lt_core::{Answer, SetCommand};
use lt_desk::Out;
use lt_modes::{Command, Event, Stamp};

impl Node {
    /// Makes the next command of a client of this node.
    #[inline(always)]
    pub fn act(&mut self, client: u16, out: &mut Out) -> Answer
        requires client { client < length self.old.script.clients }
        requires home { home self.old.script client ≡ self.old.me }
        requires runnable { IsTrue (is_free_at self.old.script (state_of self.old) client && has_command self.old.script (state_of self.old) client) }
        requires within { IsTrue (leaves_room_to_act self.old.script (state_of self.old) client) }
        requires room { RoomToAct client self.old out.old }
        requires clock { self.old.clock + 1 < 2 ^ 62 }
        ensures answer { Some result ≡ answer_of_act self.old.script self.old.me client (state_of self.old) }
        ensures does { NodeDoes (node_act self.old.script self.old.me client (state_of self.old)) self.old out.old self.new out.new }
    {
        let stamp = self.stamp_of_act();
        let command = self.advance(client);
        self.obey(client, command, stamp, out)
    }

    // The client has made its next command, at the node's next clock.
    fn advance(&mut self, client: u16) -> Command
        requires client { client < length self.old.script.clients }
        requires home { home self.old.script client ≡ self.old.me }
        requires left { IsTrue (has_command self.old.script (state_of self.old) client) }
        requires clock { self.old.clock + 1 < 2 ^ 62 }
        ensures command { next_command self.old.script (state_of self.old) client ≡ Some result }
        ensures targets { HasTargets self.old.script.sets self.old.script.clients client result }
        ensures kept { IsNode self.old }
        ensures place { (self.new.script ≡ self.old.script) × (self.new.me ≡ self.old.me) }
        ensures gone { self.new.gone ≡ self.old.gone }
        ensures cores { self.new.cores ≡ self.old.cores }
        ensures state { state_of self.new ≡ one_made client (at_clock (self.old.clock + 1) (state_of self.old)) }
    {
        self.clock += 1;
        self.clients[usize::from(client)].next()
    }

    // Does what the command says.
    fn obey(&mut self, client: u16, command: Command, stamp: Stamp, out: &mut Out) -> Answer
        requires node { stamp.node ≡ self.old.me }
        requires targets { HasTargets self.old.script.sets self.old.script.clients client command }
        requires ready { AreReady (touched_sets self.old.script command) stamp.clock (core_at self.old) out.old }
        requires keeps { KeepsClient client (core_at self.old) command }
        requires few { IsTrue (drops_few self.old.script (state_of self.old) (Some command)) }
        ensures answer { result ≡ answer_to self.old.script self.old.me client (state_of self.old) command }
        ensures does { NodeDoes (obey self.old.script stamp client (Some command) (state_of self.old)) self.old out.old self.new out.new }
    {
        match command {
            Command::Lock { set, mode } => self.touch(
                set,
                client,
                SetCommand::Lock(mode),
                stamp,
                out,
            ),
            Command::Try { set, mode } => self.touch(
                set,
                client,
                SetCommand::Try(mode),
                stamp,
                out,
            ),
            Command::Unlock { set, mode } => self.touch(
                set,
                client,
                SetCommand::Unlock(mode),
                stamp,
                out,
            ),
            Command::Change {
                set,
                gives_up,
                mode,
            } => self.touch(set, client, SetCommand::Change(gives_up, mode), stamp, out),
            Command::DropAll { client: other, set } => self.drop_all(
                client, other, set, stamp, out,
            ),
            Command::Withdraw { client: other, set } => self.touch(
                set,
                client,
                SetCommand::Withdraw(other),
                stamp,
                out,
            ),
        }
    }

    // One set obeys.
    #[inline(always)]
    fn touch(
        &mut self,
        set: u32,
        client: u16,
        command: SetCommand,
        stamp: Stamp,
        out: &mut Out,
    ) -> Answer
        requires node { stamp.node ≡ self.old.me }
        requires set { set < length self.old.script.sets }
        requires ready { IsSetReady client command stamp.clock (core_at self.old set) out.old }
        ensures answer { result ≡ answer_of self.old.me client command ((state_of self.old).set set) }
        ensures does { NodeDoes (touched (state_of self.old) set (move_of stamp client command set ((state_of self.old).set set))) self.old out.old self.new out.new }
    {
        self.sets.act(set, client, command, stamp, out)
    }

    // Drops all locks of a client in a family, unless it waits; the answer stands before what the sets send.
    fn drop_all(&mut self, client: u16, other: u16, set: u32, stamp: Stamp, out: &mut Out) -> Answer
        requires node { stamp.node ≡ self.old.me }
        requires set { set < length self.old.script.sets }
        requires ready { AreReady (related self.old.script set) stamp.clock (core_at self.old) out.old }
        requires few { locks_in_sets (state_of self.old) other (related self.old.script set)
            ≤ MAX_COMMANDS_OF_SERVICE }
        ensures answer { result ≡ answer_to self.old.script self.old.me client (state_of self.old) (commands.DropAll other set) }
        ensures does { NodeDoes (obey self.old.script stamp client (Some (commands.DropAll other set)) (state_of self.old)) self.old out.old self.new out.new }
    {
        if self.waits(other) {
            out.push_event(Event::Busy { client, other, set });
            family::end_each(&mut self.sets, self.script.kept(), set, None, stamp, out);
            return Answer::Busy;
        }
        let locks = family::locks(&self.sets, self.script.kept(), set, other);
        out.push_event(Event::DropAll {
            client,
            other,
            set,
            count: locks,
        });
        family::end_each(
            &mut self.sets,
            self.script.kept(),
            set,
            Some(other),
            stamp,
            out,
        );
        Answer::Dropped(locks)
    }
}
