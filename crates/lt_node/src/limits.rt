// Whether what the node keeps leaves room for a move. Only the sets are read that the move touches.
ghost use Rattle.std.specs.Prelude.{◌≡◌, ◌≤◌, ◌<◌, Some, IfSome, IsTrue, length};
ghost use Rattle.lt_modes.specs.declared.command.Command.TheVariants as commands;
ghost use Rattle.lt_spec.specs.NodeMove.{home, has_command};
ghost use Rattle.lt_spec.specs.Limits.{set_within, leaves_ask};
ghost use Rattle.lt_spec.specs.declared.limits.TheConstants.{MAX_COMMANDS_OF_SERVICE};
ghost use Rattle.lt_desk.specs.LetterSeen.{letter_seen};
ghost use Rattle.lt_node.specs.NodeData.{state_of};
ghost use Rattle.lt_node.specs.Touched.{named_set, leaves_room_to_obey, leaves_room_to_act, leaves_room_to_take, leaves_room_in, with_dropped};

use crate::family::first_related;
use crate::node::Node;
use lt_core::Core;
use lt_desk::Letter;
use lt_modes::Command;
use lt_spec::{MAX_CLIENTS, MAX_CLIENTS_OF_NODE, MAX_COMMANDS_OF_SERVICE};

impl Node {
    /// Whether there is room for the client's next command.
    pub fn leaves_room_to_act(&self, client: u16) -> bool
        requires client { client < length self.now.script.clients }
        requires home { home self.now.script client ≡ self.now.me }
        requires left { IsTrue (has_command self.now.script (state_of self.now) client) }
        ensures { result ≡ leaves_room_to_act self.now.script (state_of self.now) client }
    {
        self.leaves_room_to_obey(client, self.clients[usize::from(client)].upcoming())
    }

    // The same for a command of the client.
    fn leaves_room_to_obey(&self, client: u16, command: Command) -> bool
        requires { named_set command < length self.now.script.sets }
        ensures { result ≡ leaves_room_to_obey self.now.script (state_of self.now) client (Some command) }
    {
        match command {
            Command::Lock { set, .. }
            | Command::Try { set, .. }
            | Command::Unlock { set, .. }
            | Command::Change { set, .. }
            | Command::Withdraw { set, .. } => self.leaves_room_in(client, set),
            Command::DropAll { client: other, set } => self.leaves_room_to_drop(client, other, set),
        }
    }

    /// Whether there is room to take the letter.
    pub fn leaves_room_to_take(&self, letter: &Letter) -> bool
        requires { letter.now.set < length self.now.script.sets }
        ensures { result ≡ leaves_room_to_take (state_of self.now) (letter_seen letter.now) }
    {
        is_within(self.core(letter.set), self.clock)
    }

    // Whether there is room for a command of the client in the set.
    fn leaves_room_in(&self, client: u16, set: u32) -> bool
        requires { set < length self.now.script.sets }
        ensures { result ≡ leaves_room_in (state_of self.now) client set }
    {
        let core = self.core(set);
        is_within(core, self.clock) && leaves_ask(core, client)
    }

    // Whether there is room for the client to drop the other one's locks in the family of the set.
    fn leaves_room_to_drop(&self, client: u16, other: u16, set: u32) -> bool
        requires { set < length self.now.script.sets }
        ensures { result ≡ leaves_room_to_obey self.now.script (state_of self.now) client
            (Some (commands.DropAll other set)) }
    {
        let script = self.script.kept();
        let mut locks = 0;
        let mut next = Some(first_related(script, set));
        while let Some(k) = next {
            match self.with_dropped(client, k, other, locks) {
                Some(all) => locks = all,
                None => return false,
            }
            next = script.next_related(k);
        }
        true
    }

    // So many locks and those that the other client has in the set, where there is room for the client to drop all of
    // them.
    fn with_dropped(&self, client: u16, set: u32, other: u16, locks: u64) -> Option<u64>
        requires set { set < length self.now.script.sets }
        requires few { locks ≤ MAX_COMMANDS_OF_SERVICE }
        ensures dropped { result ≡ with_dropped (state_of self.now) client set other locks }
        ensures few { IfSome result (λ all. all ≤ MAX_COMMANDS_OF_SERVICE) }
    {
        if !self.leaves_room_in(client, set) {
            return None;
        }
        let all = locks + self.core(set).held_count(other);
        if all <= MAX_COMMANDS_OF_SERVICE {
            Some(all)
        } else {
            None
        }
    }
}

fn is_within(core: &Core, clock: u64) -> bool
    ensures { result ≡ set_within clock core.now.state }
{
    core.holds_at_most(MAX_COMMANDS_OF_SERVICE)
        && (core.keeps_at_most(u32::from(MAX_CLIENTS)) && core.is_desk_within(clock))
}

// Whether the client may ask in the set, or has an ask there already.
#[tactic(auto, using(std::proofs::lemmas::Bool::or_right))]
fn leaves_ask(core: &Core, client: u16) -> bool
    ensures { result ≡ leaves_ask client core.now.state }
{
    core.unanswered() < usize::from(MAX_CLIENTS_OF_NODE) || core.has_ask(client)
}
