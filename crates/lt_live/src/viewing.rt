// What a station's node did, and what its clients hold and wait for.
ghost use Rattle.std.specs.Prelude.{◌≡◌};
ghost use Rattle.lt_node.specs.NodeData.{state_of};
ghost use Rattle.lt_view.specs.View.{count_held, first_held, wait_of, queues_before};

use crate::station::Station;
use lt_log::LongLog;
use lt_modes::Mode;

impl Station {
    /// The moves that this node made, in order.
    pub fn log(&self) -> &LongLog
        ensures { result.now ≡ self.now.runner.log }
    {
        self.runner.log()
    }

    /// The first set, from this one on, in which the client holds a lock at this node.
    pub fn first_held(&self, client: u16, from: u32) -> Option<u32>
        ensures { result ≡ first_held self.now.runner.node.script (state_of self.now.runner.node) client from }
    {
        lt_view::first_held(self.runner.node(), client, from)
    }

    /// How many locks of the mode the client holds in the set at this node; 0 if there is no such set.
    pub fn count_held(&self, client: u16, set: u32, mode: Mode) -> u64
        ensures { result ≡ count_held self.now.runner.node.script (state_of self.now.runner.node) client set mode }
    {
        lt_view::count_held(self.runner.node(), client, set, mode)
    }

    /// The set in which the client waits at this node, and the mode that it waits for.
    pub fn wait_of(&self, client: u16) -> Option<(u32, Mode)>
        ensures { result ≡ wait_of self.now.runner.node.script (state_of self.now.runner.node) client }
    {
        lt_view::wait_of(self.runner.node(), client)
    }

    /// Whether in the queue of the set's desk, if that is at this node, an ask of the other client stands before one of the
    /// client.
    pub fn queues_before(&self, set: u32, other: u16, client: u16) -> bool
        ensures { result ≡ queues_before self.now.runner.node.script (state_of self.now.runner.node) set other client }
    {
        lt_view::queues_before(self.runner.node(), set, other, client)
    }
}
