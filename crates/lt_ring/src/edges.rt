// Whether one client waits for another one.
ghost use Rattle.std.specs.Prelude.{◌≡◌, Some};
ghost use Rattle.lt_ring.specs.Seen.{bars_at, holds_seen, holds_at, is_behind_at, is_behind_seen, is_wait_in, is_kept_seen};

use crate::nodes::Nodes;
use lt_modes::Mode;
use lt_node::Node;

impl<'a> Nodes<'a> {
    /// Whether the other client's lock, or its ask while it waits in the same set, stands in the way of what the client
    /// waits for.
    pub(crate) fn is_kept(
        &self,
        client: u16,
        other: u16,
        wait: Option<(u32, Mode)>,
        others: Option<(u32, Mode)>,
    ) -> bool
        ensures { result ≡ is_kept_seen self.now client other wait others }
    {
        match wait {
            Some((set, mode)) => {
                self.holds_against(set, mode, other)
                    || (is_wait_in(set, others) && self.is_behind(set, client, other))
            }
            None => false,
        }
    }

    // Whether the client holds a lock of the set at its own node, with which the mode conflicts.
    fn holds_against(&self, set: u32, mode: Mode, client: u16) -> bool
        ensures { result ≡ holds_seen self.now set mode client }
    {
        match self.own(client) {
            Some(node) => holds_at(node, set, mode, client),
            None => false,
        }
    }

    // Whether at one of the nodes the client's ask for the set stands behind one of the other client.
    fn is_behind(&self, set: u32, client: u16, other: u16) -> bool
        ensures { result ≡ is_behind_seen self.now set client other }
    {
        for place in 0..self.count() {
            if is_behind_at(self.at(place), set, client, other) {
                return true;
            }
        }
        false
    }
}

// Whether it is a wait in this set.
fn is_wait_in(set: u32, wait: Option<(u32, Mode)>) -> bool
    ensures { result ≡ is_wait_in set wait }
{
    match wait {
        Some((other, _)) => other == set,
        None => false,
    }
}

// Whether the client holds a lock of the set here, with which the mode conflicts.
fn holds_at(node: &Node, set: u32, mode: Mode, client: u16) -> bool
    ensures { result ≡ holds_at set mode client (Some node.now) }
{
    bars_at(node, set, mode, client, Mode::IntentionRead)
        || bars_at(node, set, mode, client, Mode::Read)
        || bars_at(node, set, mode, client, Mode::Upgrade)
        || bars_at(node, set, mode, client, Mode::IntentionWrite)
        || bars_at(node, set, mode, client, Mode::ReadIntentionWrite)
        || bars_at(node, set, mode, client, Mode::Write)
}

// Whether it holds one in this mode of its own.
fn bars_at(node: &Node, set: u32, mode: Mode, client: u16, own: Mode) -> bool
    ensures { result ≡ bars_at node.now set mode client own }
{
    mode.conflicts(own) && lt_view::count_held(node, client, set, own) > 0
}

// Whether an ask of the other client for the set stands before one of the client here, or one of the client is parked
// behind one of the other client.
fn is_behind_at(node: &Node, set: u32, client: u16, other: u16) -> bool
    ensures { result ≡ is_behind_at set client other node.now }
{
    set < node.script().sets()
        && (node.stands_before(set, other, client) || node.parked_behind(set, other, client))
}
