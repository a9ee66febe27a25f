ghost use Rattle.std.specs.Prelude.{◌≡◌, ◌<◌, ◌++◌, false, length, map, IfSome, OnOk, OnErr};
ghost use Rattle.lt_spec.specs.Holdings.{is_behind_void, waits_behind_void};
ghost use Rattle.lt_spec.specs.Rings.{numbers_below};
ghost use Rattle.lt_world.specs.Fields.{world_of};
ghost use Rattle.lt_world.specs.Waits.{void_in_way, AreBehind};

use super::World;
use lt_modes::Ask;
use std::alloc::AllocError;

// Who waits behind asks that were given up.
impl World {
    /// Adds a mark for each client, in order: whether the client waits behind a void ask of it.
    pub fn push_voids(&self, marks: &mut Vec<bool>, client: u16) -> Result<(), AllocError>
        requires { client < length self.now.script.clients }
        ensures marks { OnOk result (marks.new.items ≡ marks.old.items
            ++ map (waits_behind_void self.now.script (world_of self.now) client) (numbers_below (length self.now.script.clients))) }
        ensures unchanged { OnErr result (marks.new.items ≡ marks.old.items) }
    {
        let ask = self.ask_of(client);
        let behind = self.behind(*marks.allocator(), &ask)?;
        marks.reserve(usize::from(self.script.clients()))?;
        for other in 0..self.script.clients() {
            marks.push_reserved(self.is_behind_void_by_marks(other, &ask, &behind));
        }
        Ok(())
    }

    // Whether the ask, if there is one, waits behind a void one of the other client.
    fn is_behind_void_by_marks(&self, other: u16, ask: &Option<(u32, Ask)>, behind: &[bool]) -> bool
        requires other { other < length self.now.script.clients }
        requires set { IfSome ask.now (λ found. found.0 < length self.now.script.sets) }
        requires behind { IfSome ask.now (λ found. AreBehind self.now found.0 found.1.client behind.now) }
        ensures { result ≡ void_in_way self.now other ask.now }
    {
        match ask {
            Some((set, ask)) => self.is_marked_and_void(*set, other, ask, behind),
            None => false,
        }
    }

    // Whether the ask waits behind one of the other client, and that one is void.
    fn is_marked_and_void(&self, set: u32, other: u16, ask: &Ask, behind: &[bool]) -> bool
        requires set { set < length self.now.script.sets }
        requires other { other < length self.now.script.clients }
        requires behind { AreBehind self.now set ask.now.client behind.now }
        ensures { result ≡ is_behind_void self.now.script (world_of self.now) set other ask.now }
    {
        behind[usize::from(other)] && self.gave_up(set, other)
    }
}
