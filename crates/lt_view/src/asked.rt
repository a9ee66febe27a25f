// What a client waits for, and behind whom.
ghost use Rattle.std.specs.Prelude.{◌≡◌};
ghost use Rattle.lt_node.specs.NodeData.{state_of};
ghost use Rattle.lt_view.specs.View.{wait_of, queues_before};

use lt_modes::Mode;
use lt_node::Node;

/// The set in which the client waits, and the mode that it waits for: in the first one, if it waits in more.
pub fn wait_of(node: &Node, client: u16) -> Option<(u32, Mode)>
    ensures { result ≡ wait_of node.now.script (state_of node.now) client }
{
    match node.ask_of(client) {
        Some((set, ask)) => Some((set, ask.mode)),
        None => None,
    }
}

/// Whether in the queue of the set's desk, if that is at the node, an ask of the other client stands before one of the client.
pub fn queues_before(node: &Node, set: u32, other: u16, client: u16) -> bool
    ensures { result ≡ queues_before node.now.script (state_of node.now) set other client }
{
    set < node.script().sets() && node.stands_before(set, other, client)
}
