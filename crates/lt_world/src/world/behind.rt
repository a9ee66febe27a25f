ghost use Rattle.std.specs.Prelude.{◌≡◌, ◌<◌, ◌≤◌, ◌||◌, ℕ, false, length, slice_index_or, IfOk, IfSome};
ghost use Rattle.lt_modes.specs.Waiting.{stands_before, parked_behind};
ghost use Rattle.lt_spec.specs.Facts.{state_at};
ghost use Rattle.lt_spec.specs.Holdings.{waits_behind, is_kept_by};
ghost use Rattle.lt_node.specs.Marks.{AreAdded};
ghost use Rattle.lt_world.specs.Fields.{world_of};
ghost use Rattle.lt_world.specs.Waits.{stands_in_way, waits_by, AreBehind};

use super::World;
use lt_modes::Ask;
use std::alloc::{AllocError, Global};

// For whom a client waits, where all those are marked behind whose asks its own waits.
impl World {
    // A mark for each client: whether the ask, if there is one, waits behind one of the client.
    pub(super) fn behind(
        &self,
        alloc: Global,
        ask: &Option<(u32, Ask)>,
    ) -> Result<Vec<bool>, AllocError>
        requires { IfSome ask.now (λ found. found.0 < length self.now.script.sets) }
        ensures { IfOk result
            (λ marks. IfSome ask.now (λ found. AreBehind self.now found.0 found.1.client marks.items)) }
    {
        let mut marks = no_marks(alloc, self.script.clients())?;
        if let Some((set, ask)) = ask {
            self.mark_behind(&mut marks, *set, ask.client);
        }
        Ok(marks)
    }

    // Marks each client behind whose ask for the set one of this client waits.
    fn mark_behind(&self, marks: &mut Vec<bool>, set: u32, client: u16)
        requires set { set < length self.now.script.sets }
        requires marks { length marks.old.items ≤ length self.now.script.clients }
        ensures { AreAdded (λ other. waits_behind self.now.script (world_of self.now) set other client)
            marks.old.items marks.new.items }
    {
        for node in 0..self.script.nodes() {
            self.mark_at(marks, node, set, client);
        }
    }

    // Marks those behind whose asks it waits at this node.
    fn mark_at(&self, marks: &mut Vec<bool>, node: u8, set: u32, client: u16)
        requires node { node < self.now.script.nodes }
        requires set { set < length self.now.script.sets }
        requires marks { length marks.old.items ≤ length self.now.script.clients }
        ensures { AreAdded (λ other. stands_before (state_at (world_of self.now) set node) other client
            || parked_behind (state_at (world_of self.now) set node) other client) marks.old.items marks.new.items }
    {
        self.network.nodes[usize::from(node)].mark_behind(marks, set, client);
    }

    // Whether the other one is another client, and stands in the way of the client's ask, if there is one.
    pub(super) fn waits_by_marks(
        &self,
        client: u16,
        other: u16,
        ask: &Option<(u32, Ask)>,
        behind: &[bool],
    ) -> bool
        requires other { other < length self.now.script.clients }
        requires set { IfSome ask.now (λ found. found.0 < length self.now.script.sets) }
        requires behind { IfSome ask.now (λ found. AreBehind self.now found.0 found.1.client behind.now) }
        ensures { result ≡ waits_by self.now client other ask.now }
    {
        client != other && self.is_kept_by_marks(other, ask, behind)
    }

    // Whether the other client stands in the way of the ask, if there is one.
    fn is_kept_by_marks(&self, other: u16, ask: &Option<(u32, Ask)>, behind: &[bool]) -> bool
        requires other { other < length self.now.script.clients }
        requires set { IfSome ask.now (λ found. found.0 < length self.now.script.sets) }
        requires behind { IfSome ask.now (λ found. AreBehind self.now found.0 found.1.client behind.now) }
        ensures { result ≡ stands_in_way self.now other ask.now }
    {
        match ask {
            Some((set, ask)) => self.is_marked_or_bars(*set, other, ask, behind),
            None => false,
        }
    }

    // Whether the ask waits behind one of the other client that isn't void, or this one's lock stands in its way.
    fn is_marked_or_bars(&self, set: u32, other: u16, ask: &Ask, behind: &[bool]) -> bool
        requires set { set < length self.now.script.sets }
        requires other { other < length self.now.script.clients }
        requires behind { AreBehind self.now set ask.now.client behind.now }
        ensures { result ≡ is_kept_by self.now.script (world_of self.now) set other ask.now }
    {
        (behind[usize::from(other)] && !self.gave_up(set, other))
            || self.holds_against(set, ask.mode, other)
    }
}

// A mark for each of so many clients, none of which is set.
fn no_marks(alloc: Global, clients: u16) -> Result<Vec<bool>, AllocError>
    ensures count { IfOk result (λ marks. length marks.items ≡ clients) }
    ensures none { IfOk result (λ marks. (client : ℕ) → slice_index_or marks.items client false ≡ false) }
{
    let mut marks = Vec::new(alloc);
    marks.resize(usize::from(clients), false)?;
    Ok(marks)
}
