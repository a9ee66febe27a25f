// The clients of a node, and the first of them that can act.
ghost use Rattle.std.specs.Prelude.{◌<◌, ◌+◌, length, IfOk, OnOk};
ghost use Rattle.lt_node.specs.NodeData.{state_of};
ghost use Rattle.lt_node.specs.Clients.{AreOwn, IsLeast, is_runnable_here};

use crate::node::Node;
use lt_script::{MAX_CLIENTS_OF_NODE, Script};
use std::alloc::{AllocError, Global};

impl Node {
    /// The first client of this node that has a command left, and doesn't wait or gives up by it what it waits for.
    pub fn first_runnable(&self) -> Option<u16>
        ensures { IsLeast (length self.now.script.clients) (is_runnable_here self.now.script self.now.me (state_of self.now)) result }
    {
        first_of(self, &self.own)
    }
}

// The same, of these, which are the node's own.
fn first_of(node: &Node, own: &[u16]) -> Option<u16>
    requires { AreOwn node.now.script.clients node.now.me 0 (length node.now.script.clients) own.now }
    ensures { IsLeast (length node.now.script.clients) (is_runnable_here node.now.script node.now.me (state_of node.now)) result }
{
    for place in 0..own.len() {
        let client = own[place];
        if node.runnable(client) {
            return Some(client);
        }
    }
    None
}

/// The clients of the node, in order.
pub(crate) fn own_of(alloc: Global, script: &Script, node: u8) -> Result<Vec<u16>, AllocError>
    ensures { IfOk result (λ own. AreOwn script.now.clients node 0 (length script.now.clients) own.items) }
{
    let mut own = Vec::with_capacity(alloc, usize::from(MAX_CLIENTS_OF_NODE))?;
    for client in 0..script.clients() {
        add_own(&mut own, script, node, client)?;
    }
    Ok(own)
}

// The list has this client too, where it is one of the node.
fn add_own(own: &mut Vec<u16>, script: &Script, node: u8, client: u16) -> Result<(), AllocError>
    requires client { client < length script.now.clients }
    requires own { AreOwn script.now.clients node 0 client own.old.items }
    ensures { OnOk result (AreOwn script.now.clients node 0 (client + 1) own.new.items) }
{
    if script.home(client) != node {
        return Ok(());
    }
    own.push(client)?;
    Ok(())
}
