// What a client holds.
ghost use Rattle.std.specs.Prelude.{◌≡◌, ◌<◌, ◌≤◌, ◌-◌, length};
ghost use Rattle.lt_node.specs.NodeData.{state_of};
ghost use Rattle.lt_view.specs.View.{holds_in, held_among, first_held, count_held};

use lt_modes::Mode;
use lt_node::Node;

/// How many locks of the mode the client holds in the set; 0 if there is no such set.
pub fn count_held(node: &Node, client: u16, set: u32, mode: Mode) -> u64
    ensures { result ≡ count_held node.now.script (state_of node.now) client set mode }
{
    if set < node.script().sets() {
        node.count(set, client, mode)
    } else {
        0
    }
}

/// The first set, from this one on, in which the client holds a lock.
pub fn first_held(node: &Node, client: u16, from: u32) -> Option<u32>
    ensures { result ≡ first_held node.now.script (state_of node.now) client from }
{
    let end = node.script().sets();
    if from >= end {
        return None;
    }
    first_between(node, client, from, end)
}

// The first set, from this one on and before that one, in which the client holds a lock.
fn first_between(node: &Node, client: u16, from: u32, end: u32) -> Option<u32>
    requires order { from ≤ end }
    requires inside { end ≤ length node.now.script.sets }
    ensures { result ≡ held_among (state_of node.now) client from (end - from) }
{
    for set in from..end {
        if holds_in(node, client, set) {
            return Some(set);
        }
    }
    None
}

// Whether the client holds a lock in the set.
fn holds_in(node: &Node, client: u16, set: u32) -> bool
    requires { set < length node.now.script.sets }
    ensures { result ≡ holds_in (state_of node.now) client set }
{
    node.count(set, client, Mode::IntentionRead) > 0
        || node.count(set, client, Mode::Read) > 0
        || node.count(set, client, Mode::Upgrade) > 0
        || node.count(set, client, Mode::IntentionWrite) > 0
        || node.count(set, client, Mode::ReadIntentionWrite) > 0
        || node.count(set, client, Mode::Write) > 0
}
