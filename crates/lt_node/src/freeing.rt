// Whether a client that waits may go on, since its next command gives up what it waits for.
ghost use Rattle.std.specs.Prelude.{◌≡◌, ◌<◌, ◌&&◌, length, Some, IsTrue};
ghost use Rattle.lt_spec.specs.NodeMove.{home, has_command, is_free_at, next_command, withdraws_itself};
ghost use Rattle.lt_node.specs.NodeData.{state_of};
ghost use Rattle.lt_node.specs.Touched.{named_set};

use crate::node::Node;
use lt_modes::Command;

impl Node {
    /// Whether the client, of this node, doesn't wait, or its next command gives up what it waits for.
    pub fn is_free(&self, client: u16) -> bool
        requires client { client < length self.now.script.clients }
        requires home { home self.now.script client ≡ self.now.me }
        ensures { result ≡ is_free_at self.now.script (state_of self.now) client }
    {
        !self.waits(client) || self.withdraws_itself(client)
    }

    // Whether the client has a command left.
    #[inline(always)]
    pub(crate) fn has_command(&self, client: u16) -> bool
        requires client { client < length self.now.script.clients }
        requires home { home self.now.script client ≡ self.now.me }
        ensures { result ≡ has_command self.now.script (state_of self.now) client }
    {
        self.clients[usize::from(client)].has_next()
    }

    /// Whether the client's next command gives up what it waits for.
    #[inline(never)]
    pub(crate) fn withdraws_itself(&self, client: u16) -> bool
        requires client { client < length self.now.script.clients }
        requires home { home self.now.script client ≡ self.now.me }
        ensures itself { result ≡ withdraws_itself (state_of self.now) client (next_command self.now.script (state_of self.now) client) }
        ensures left { result ≡ (result && has_command self.now.script (state_of self.now) client) }
    {
        self.has_command(client) && self.gives_up(client)
    }

    // The client's next command.
    #[inline(always)]
    fn upcoming(&self, client: u16) -> Command
        requires client { client < length self.now.script.clients }
        requires home { home self.now.script client ≡ self.now.me }
        requires left { IsTrue (has_command self.now.script (state_of self.now) client) }
        ensures next { next_command self.now.script (state_of self.now) client ≡ Some result }
        ensures named { named_set result < length self.now.script.sets }
    {
        self.clients[usize::from(client)].upcoming()
    }

    // The same, where a command is left.
    fn gives_up(&self, client: u16) -> bool
        requires client { client < length self.now.script.clients }
        requires home { home self.now.script client ≡ self.now.me }
        requires left { IsTrue (has_command self.now.script (state_of self.now) client) }
        ensures { result ≡ withdraws_itself (state_of self.now) client (next_command self.now.script (state_of self.now) client) }
    {
        match self.upcoming(client) {
            Command::Withdraw { client: other, set } => other == client
                && self.core(set).waits(client),
            Command::Lock { .. }
            | Command::Try { .. }
            | Command::Unlock { .. }
            | Command::Change { .. }
            | Command::DropAll { .. } => false,
        }
    }
}
