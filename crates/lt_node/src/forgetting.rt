// Commands that the node forgets.
ghost use Rattle.std.specs.Prelude.{◌≡◌, length, OnOk, OnErr};

use crate::client::Client;
use crate::node::Node;
use std::alloc::{AllocError, Global};

impl Node {
    /// Forgets all commands of the script so far, apart from those that its clients are still to make. What contracts
    /// say of the script, and what the node makes, stays the same.
    pub fn forget_commands(&mut self, alloc: Global) -> Result<(), AllocError>
        ensures same { self.new ≡ record self.old { gone = self.new.gone } }
        ensures forgotten { OnOk result (self.new.gone ≡ length self.old.script.commands) }
        ensures none { OnErr result (self.new ≡ self.old) }
    {
        self.script.forget(alloc)?;
        forget_made(&mut self.clients);
        Ok(())
    }
}

// Each client forgets the commands that it made.
fn forget_made(clients: &mut Vec<Client>)
    ensures { clients.new.items ≡ clients.old.items }
{
    for place in 0..clients.len() {
        clients[place].forget_made();
    }
}
