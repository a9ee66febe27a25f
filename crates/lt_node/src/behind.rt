ghost use Rattle.std.specs.Prelude.{◌≡◌, ◌<◌, ◌≤◌, ◌==◌, ◌&&◌, ◌||◌, length};
ghost use Rattle.lt_modes.specs.Waiting.{stands_before, parked_behind};
ghost use Rattle.lt_node.specs.NodeData.{state_of};
ghost use Rattle.lt_node.specs.Marks.{AreAdded};

use crate::node::Node;
use lt_core::Core;

// Behind whose asks those of a client wait here.
impl Node {
    /// Marks each client behind whose ask for the set one of this client stands here, or is parked.
    pub fn mark_behind(&self, marks: &mut Vec<bool>, set: u32, client: u16)
        requires set { set < length self.now.script.sets }
        requires marks { length marks.old.items ≤ length self.now.script.clients }
        ensures { AreAdded (λ other. stands_before ((state_of self.now).set set) other client
            || parked_behind ((state_of self.now).set set) other client) marks.old.items marks.new.items }
    {
        let core = self.core(set);
        mark_queued(marks, core, client);
        if core.parks(client) {
            mark_parked(marks, core, client, self.script.kept().clients());
        }
    }
}

// Marks each client whose ask stands before one of this client in the queue.
fn mark_queued(marks: &mut Vec<bool>, core: &Core, client: u16)
    ensures { AreAdded (λ other. stands_before core.now.state other client) marks.old.items marks.new.items }
{
    let mut later = false;
    let mut k = core.queue_len();
    while k > 0 {
        k -= 1;
        let other = core.queued(k).client;
        mark_if(marks, other, later);
        later = later || other == client;
    }
}

// Marks each of these clients behind whose ask one of this client is parked.
fn mark_parked(marks: &mut Vec<bool>, core: &Core, client: u16, clients: u16)
    requires { length marks.old.items ≤ clients }
    ensures { AreAdded (λ other. parked_behind core.now.state other client) marks.old.items marks.new.items }
{
    for other in 0..clients {
        mark_if(marks, other, core.parked_behind(other, client));
    }
}

// Marks the client where that is so, and it has a mark.
fn mark_if(marks: &mut Vec<bool>, client: u16, is_so: bool)
    ensures { AreAdded (λ other. client == other && is_so) marks.old.items marks.new.items }
{
    let place = usize::from(client);
    if is_so && place < marks.len() {
        marks[place] = true;
    }
}
