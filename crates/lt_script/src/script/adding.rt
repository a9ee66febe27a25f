// What is added to a script: a last set, client or command. What a script shares with a copy it gets for its own first.
ghost use Rattle.std.specs.Prelude.{◌≡◌, ◌<◌, ◌++◌, ◌∷◌, [], true, false, length, OnOk, OnErr, IfOk};
ghost use Rattle.lt_spec.specs.Script.{is_name, IsFamilyOfNext, IsRequest, IsOfVersion, most_clients, load_of, is_declared};
ghost use Rattle.std.specs.Arc.{arc_value};
ghost use Rattle.lt_script.specs.Index.{hash_of};
ghost use Rattle.lt_spec.specs.declared.limits.TheConstants.{MAX_SETS_OF_SERVICE, MAX_CLIENTS_OF_NODE, MAX_COMMANDS_OF_SERVICE};

use crate::declarations::{ClientDecl, SetDecl};
use crate::index::hash;
use crate::script::Script;
use lt_modes::Command;
use std::alloc::AllocError;
use std::sync::Arc;

impl Script {
    // Gives the script declarations of its own, where copies share them.
    fn own_parts(&mut self) -> Result<(), AllocError>
        ensures { self.new ≡ self.old }
    {
        if Arc::strong_count(&self.parts) > 1 {
            let alloc = *self.commands.allocator();
            let parts = self.parts.copy(alloc)?;
            self.parts = Arc::new(alloc, parts)?;
        }
        Ok(())
    }

    // Gives the script commands of its own, where copies share them.
    #[inline(always)]
    fn own_commands(&mut self) -> Result<(), AllocError>
        ensures { self.new ≡ self.old }
    {
        if Arc::strong_count(&self.commands) > 1 {
            self.commands = copied(&self.commands)?;
        }
        Ok(())
    }

    /// Adds a last set. Its family is its own number, or that of the first set of an earlier family.
    pub fn add_set(&mut self, name: &[u8], family: u32) -> Result<(), AllocError>
        requires name { is_name name.now ≡ true }
        requires new { is_declared self.old name.now ≡ false }
        requires room { length self.old.sets < MAX_SETS_OF_SERVICE }
        requires family { IsFamilyOfNext self.old.sets family }
        ensures added { OnOk result (self.new ≡ record self.old {
          sets = self.old.sets ++ record { name = name.now; family = family } ∷ [];
        }) }
        ensures unchanged { OnErr result (self.new ≡ self.old) }
    {
        self.add_set_hashed(name, hash(name), family)
    }

    /// The same of a name with this hash.
    pub(crate) fn add_set_hashed(
        &mut self,
        name: &[u8],
        hash: u32,
        family: u32,
    ) -> Result<(), AllocError>
        requires name { is_name name.now ≡ true }
        requires new { is_declared self.old name.now ≡ false }
        requires room { length self.old.sets < MAX_SETS_OF_SERVICE }
        requires family { IsFamilyOfNext self.old.sets family }
        requires hash { hash ≡ hash_of name.now }
        ensures added { OnOk result (self.new ≡ record self.old {
          sets = self.old.sets ++ record { name = name.now; family = family } ∷ [];
        }) }
        ensures unchanged { OnErr result (self.new ≡ self.old) }
    {
        self.own_parts()?;
        let Some(parts) = Arc::get_mut(&mut self.parts) else {
            return Err(AllocError);
        };
        parts.sets.push(SetDecl::new(name, family), hash)?;
        Ok(())
    }

    /// Makes room for so many further sets.
    pub fn reserve_sets(&mut self, more: u32) -> Result<(), AllocError>
        ensures { self.new ≡ self.old }
    {
        self.own_parts()?;
        let Some(parts) = Arc::get_mut(&mut self.parts) else {
            return Err(AllocError);
        };
        parts.sets.reserve(more)
    }

    /// Adds a last client.
    pub fn add_client(&mut self, name: &[u8], node: u8) -> Result<(), AllocError>
        requires name { is_name name.now ≡ true }
        requires new { is_declared self.old name.now ≡ false }
        requires room { length self.old.clients < most_clients self.old.version }
        requires node { node < self.old.nodes }
        requires load { load_of self.old.clients node < MAX_CLIENTS_OF_NODE }
        ensures added { OnOk result (self.new ≡ record self.old {
          clients = self.old.clients ++ record { name = name.now; node = node } ∷ [];
        }) }
        ensures unchanged { OnErr result (self.new ≡ self.old) }
    {
        self.own_parts()?;
        let Some(parts) = Arc::get_mut(&mut self.parts) else {
            return Err(AllocError);
        };
        parts.clients.push(ClientDecl::new(name, node), hash(name))?;
        Ok(())
    }

    /// Adds a last command, which this client makes.
    #[inline(always)]
    pub fn add_command(&mut self, client: u16, command: Command) -> Result<(), AllocError>
        requires room { length self.old.commands < MAX_COMMANDS_OF_SERVICE }
        requires request { IsRequest self.old.sets self.old.clients (client, command) }
        requires modes { IsOfVersion self.old.version command }
        ensures added { OnOk result
            (self.new ≡ record self.old { commands = self.old.commands ++ (client, command) ∷ [] }) }
        ensures unchanged { OnErr result (self.new ≡ self.old) }
    {
        self.own_commands()?;
        let Some(commands) = Arc::get_mut(&mut self.commands) else {
            return Err(AllocError);
        };
        commands.push((client, command))?;
        Ok(())
    }
}

// A copy of the commands. It is rarely made, and its code stays out of that which adds a command.
#[cold]
#[inline(never)]
fn copied(commands: &Arc<Vec<(u16, Command)>>) -> Result<Arc<Vec<(u16, Command)>>, AllocError>
    ensures { IfOk result (λ copy. (arc_value copy).items ≡ (arc_value commands.now).items) }
{
    let alloc = *commands.allocator();
    let copy = Vec::from_slice(alloc, commands)?;
    let copy = Arc::new(alloc, copy)?;
    Ok(copy)
}
