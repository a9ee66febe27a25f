ghost use Rattle.std.specs.Prelude.{◌≡◌, ◌<◌, is_some, length};
ghost use Rattle.lt_modes.specs.Modes.{count_of};
ghost use Rattle.lt_modes.specs.Serving.{is_gone};
ghost use Rattle.lt_modes.specs.Waiting.{pending_ask, stands_before, parked_behind};
ghost use Rattle.lt_spec.specs.NodeMove.{node_waits};
ghost use Rattle.lt_node.specs.NodeData.{first_ask, state_of};

use crate::node::Node;
use lt_core::Core;
use lt_modes::{Ask, Mode};

// What the clients hold and wait for here, and behind whose asks.
impl Node {
    /// How many locks of the mode the client holds in the set.
    pub fn count(&self, set: u32, client: u16, mode: Mode) -> u64
        requires { set < length self.now.script.sets }
        ensures { result ≡ count_of ((state_of self.now).set set).held client mode }
    {
        self.core(set).count(client, mode)
    }

    /// The client's unanswered ask in the set, if it has one, given up or not.
    pub fn ask_in(&self, set: u32, client: u16) -> Option<Ask>
        requires { set < length self.now.script.sets }
        ensures { result ≡ pending_ask ((state_of self.now).set set) client }
    {
        self.core(set).ask_of(client)
    }

    /// Whether the client's unanswered ask in the set was given up.
    pub fn is_gone(&self, set: u32, client: u16) -> bool
        requires { set < length self.now.script.sets }
        ensures { result ≡ is_gone ((state_of self.now).set set) client }
    {
        self.core(set).is_gone(client)
    }

    /// The ask for which the client waits, if it does, and its set: the first one, if it has more.
    pub fn ask_of(&self, client: u16) -> Option<(u32, Ask)>
        ensures ask { result ≡ first_ask self.now.script (state_of self.now) client }
        ensures some { is_some result ≡ node_waits self.now.script (state_of self.now) client }
    {
        self.search_ask(client)
    }

    // The ask for which the client waits in the first set where it does.
    fn search_ask(&self, client: u16) -> Option<(u32, Ask)>
        ensures { result ≡ first_ask self.now.script (state_of self.now) client }
    {
        for set in 0..self.script.kept().sets() {
            if let Some(ask) = self.core(set).live_ask(client) {
                return Some((set, ask));
            }
        }
        None
    }

    /// Whether in the queue of the set's desk here an ask of the other client stands before one of the client.
    pub fn stands_before(&self, set: u32, other: u16, client: u16) -> bool
        requires { set < length self.now.script.sets }
        ensures { result ≡ stands_before ((state_of self.now).set set) other client }
    {
        self.core(set).stands_before(other, client)
    }

    /// Whether an ask of the client for the set is parked here behind an older one of the other client.
    pub fn parked_behind(&self, set: u32, other: u16, client: u16) -> bool
        requires { set < length self.now.script.sets }
        ensures { result ≡ parked_behind ((state_of self.now).set set) other client }
    {
        self.core(set).parked_behind(other, client)
    }

    // What the node keeps for the set.
    pub(crate) fn core(&self, set: u32) -> &Core
        requires { set < length self.now.script.sets }
        ensures { result.now.state ≡ (state_of self.now).set set }
    {
        self.sets.core(set)
    }
}
