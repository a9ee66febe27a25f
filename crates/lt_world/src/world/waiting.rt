ghost use Rattle.std.specs.Prelude.{◌≡◌, ◌<◌, ◌||◌, ◌++◌, ℕ, false, IfSome, IsFalse, OnOk, OnErr, length, map};
ghost use Rattle.lt_modes.specs.Modes.{count_of};
ghost use Rattle.lt_modes.specs.Waiting.{pending_ask, stands_before, parked_behind};
ghost use Rattle.lt_spec.specs.Facts.{state_at};
ghost use Rattle.lt_spec.specs.NodeMove.{home};
ghost use Rattle.lt_spec.specs.Holdings.{holds_against, waits_behind, gave_up, is_kept_by, waits_for, waits_behind_void};
ghost use Rattle.lt_spec.specs.Rings.{numbers_below};
ghost use Rattle.lt_node.specs.NodeData.{first_ask};
ghost use Rattle.lt_world.specs.Fields.{world_of, bars_by_lock};
ghost use Rattle.lt_world.specs.Waits.{stands_in_way, void_in_way, waits_by};

use super::World;
use lt_modes::{Ask, MODES, Mode};
use std::alloc::AllocError;

// Who waits for whom.
impl World {
    /// Whether the client waits for the other one.
    pub fn waits_for(&self, client: u16, other: u16) -> bool
        requires client { client < length self.now.script.clients }
        requires other { other < length self.now.script.clients }
        ensures { result ≡ waits_for self.now.script (world_of self.now) client other }
    {
        self.waits_by(client, other, &self.ask_of(client))
    }

    /// Adds a mark for each client, in order: whether the client waits for it.
    pub fn push_waits(&self, marks: &mut Vec<bool>, client: u16) -> Result<(), AllocError>
        requires { client < length self.now.script.clients }
        ensures marks { OnOk result (marks.new.items ≡ marks.old.items
            ++ map (waits_for self.now.script (world_of self.now) client) (numbers_below (length self.now.script.clients))) }
        ensures unchanged { OnErr result (marks.new.items ≡ marks.old.items) }
    {
        let ask = self.ask_of(client);
        let behind = self.behind(*marks.allocator(), &ask)?;
        marks.reserve(usize::from(self.script.clients()))?;
        for other in 0..self.script.clients() {
            marks.push_reserved(self.waits_by_marks(client, other, &ask, &behind));
        }
        Ok(())
    }

    // The ask for which the client waits with its set, if it does.
    pub(super) fn ask_of(&self, client: u16) -> Option<(u32, Ask)>
        requires { client < length self.now.script.clients }
        ensures within { IfSome result (λ found. found.0 < length self.now.script.sets) }
        ensures waits { (other : ℕ)
            → waits_for self.now.script (world_of self.now) client other ≡ waits_by self.now client other result }
        ensures voids { (other : ℕ)
            → waits_behind_void self.now.script (world_of self.now) client other ≡ void_in_way self.now other result }
    {
        let _ = &self.script;
        self.first_ask(client)
    }

    // The client's unanswered ask that it didn't give up, in the first set that has one, with this set.
    fn first_ask(&self, client: u16) -> Option<(u32, Ask)>
        requires { client < length self.now.script.clients }
        ensures { result ≡ first_ask self.now.script ((world_of self.now).node (home self.now.script client)) client }
    {
        self.network.nodes[usize::from(self.script.home(client))].ask_of(client)
    }

    // Whether the other one is another client, and stands in the way of the client's ask, if there is one.
    fn waits_by(&self, client: u16, other: u16, ask: &Option<(u32, Ask)>) -> bool
        requires other { other < length self.now.script.clients }
        requires set { IfSome ask.now (λ found. found.0 < length self.now.script.sets) }
        ensures { result ≡ waits_by self.now client other ask.now }
    {
        client != other && self.is_kept(other, ask)
    }

    // Whether the other client stands in the way of the ask, if there is one.
    fn is_kept(&self, other: u16, ask: &Option<(u32, Ask)>) -> bool
        requires other { other < length self.now.script.clients }
        requires set { IfSome ask.now (λ found. found.0 < length self.now.script.sets) }
        ensures { result ≡ stands_in_way self.now other ask.now }
    {
        match ask {
            Some((set, ask)) => self.is_kept_by(*set, other, ask),
            None => false,
        }
    }

    // Whether the other client's lock or ask stands in the way of the ask.
    fn is_kept_by(&self, set: u32, other: u16, ask: &Ask) -> bool
        requires set { set < length self.now.script.sets }
        requires other { other < length self.now.script.clients }
        ensures { result ≡ is_kept_by self.now.script (world_of self.now) set other ask.now }
    {
        self.holds_against(set, ask.mode, other)
            || (!self.gave_up(set, other) && self.waits_behind(set, other, ask.client))
    }

    // Whether the client's ask for the set is void.
    pub(super) fn gave_up(&self, set: u32, client: u16) -> bool
        requires set { set < length self.now.script.sets }
        requires client { client < length self.now.script.clients }
        ensures { result ≡ gave_up self.now.script (world_of self.now) set client }
    {
        let home = usize::from(self.script.home(client));
        self.network.nodes[home].is_gone(set, client)
    }

    // Whether the client holds a lock of the set with which the mode conflicts.
    pub(super) fn holds_against(&self, set: u32, mode: Mode, client: u16) -> bool
        requires set { set < length self.now.script.sets }
        requires client { client < length self.now.script.clients }
        ensures { result ≡ holds_against self.now.script (world_of self.now) set mode client }
    {
        for &own in &MODES {
            if self.is_against(set, mode, client, own) {
                return true;
            }
        }
        false
    }

    // Whether the client holds a lock of the set in its own mode, and the mode conflicts with that.
    fn is_against(&self, set: u32, mode: Mode, client: u16, own: Mode) -> bool
        requires set { set < length self.now.script.sets }
        requires client { client < length self.now.script.clients }
        ensures { result ≡ bars_by_lock self.now set mode client own }
    {
        mode.conflicts(own) && self.held(set, client, own) > 0
    }

    // How many locks of the mode the client holds in the set.
    fn held(&self, set: u32, client: u16, mode: Mode) -> u64
        requires set { set < length self.now.script.sets }
        requires client { client < length self.now.script.clients }
        ensures { result ≡ count_of (state_at (world_of self.now) set (home self.now.script client)).held client mode }
    {
        let home = usize::from(self.script.home(client));
        self.network.nodes[home].count(set, client, mode)
    }

    // Whether at some node the other client's ask for the set stands before the client's, or the client's is parked behind
    // it.
    fn waits_behind(&self, set: u32, other: u16, client: u16) -> bool
        requires set { set < length self.now.script.sets }
        requires other { other < length self.now.script.clients }
        ensures { result ≡ waits_behind self.now.script (world_of self.now) set other client }
    {
        if !self.asks(set, other) {
            return false;
        }
        for node in 0..self.script.nodes() {
            if self.is_behind(node, set, other, client) {
                return true;
            }
        }
        false
    }

    // Whether the client has an unanswered ask for the set. Nobody waits behind one that has none.
    fn asks(&self, set: u32, client: u16) -> bool
        requires set { set < length self.now.script.sets }
        requires client { client < length self.now.script.clients }
        ensures { IsFalse result
            → (later : ℕ) → waits_behind self.now.script (world_of self.now) set client later ≡ false }
    {
        let _ = &self.script;
        self.ask_in(set, client).is_some()
    }

    // The client's unanswered ask for the set, if it has one.
    fn ask_in(&self, set: u32, client: u16) -> Option<Ask>
        requires set { set < length self.now.script.sets }
        requires client { client < length self.now.script.clients }
        ensures { result ≡ pending_ask (state_at (world_of self.now) set (home self.now.script client)) client }
    {
        let home = usize::from(self.script.home(client));
        self.network.nodes[home].ask_in(set, client)
    }

    // Whether it is so at this node.
    fn is_behind(&self, node: u8, set: u32, other: u16, client: u16) -> bool
        requires node { node < self.now.script.nodes }
        requires set { set < length self.now.script.sets }
        ensures { result ≡ (stands_before (state_at (world_of self.now) set node) other client
            || parked_behind (state_at (world_of self.now) set node) other client) }
    {
        let here = &self.network.nodes[usize::from(node)];
        here.stands_before(set, other, client) || here.parked_behind(set, other, client)
    }
}
