ghost use Rattle.std.specs.Prelude.{◌≡◌, ◌≢◌, ◌⊎◌, ◌<◌, ◌≤◌, ℕ, [], length, slice_get, IfOk, IfSome, IfNone};
ghost use Rattle.lt_modes.specs.Script.{set_name, family_at, client_name, home_at};
ghost use Rattle.lt_spec.specs.Script.{IsScript, most_nodes, load_of};
ghost use Rattle.lt_spec.specs.declared.limits.TheConstants.{MAX_NODES, MAX_NODES_OF_FIRST};
ghost use Rattle.lt_script.specs.Families.{IsNextRelated, IsLastRelated};

mod adding;
mod by_name;
mod naming;
mod parts;

use crate::declarations::{ClientDecl, SetDecl};
use crate::index::Named;
pub use crate::script::by_name::SetByName;
use crate::script::parts::{Parts, room_for_commands};
use lt_modes::Command;
use std::alloc::{AllocError, Global};
use std::marker::Model;
use std::sync::Arc;

/// The nodes, lock sets and clients of a run, and the commands that the clients make.
///
/// Sets and clients have numbers from 0, as they are declared. A client's commands are its own among all, in order.
/// A copy shares its declarations and its commands with the script that it was made of, each until one of the two adds
/// to them.
pub struct Script {
    version: u8,
    nodes: u8,
    parts: Arc<Parts>,
    commands: Arc<Vec<(u16, Command)>>,
}

impl Model for Script {
    ghost use Rattle.lt_modes.specs.Script.{ScriptData};

    ghost Value = { ScriptData };

    ghost use Rattle.lt_spec.specs.Script.{IsScript};
    ghost use Rattle.lt_script.specs.Views.{script_data};

    ghost view = { script_data };

    ghost invariant = { λ s. IsScript (script_data s) };
}

// Written out, so that all places which let a script go call this.
impl Drop for Script {
    fn drop(self) {
        let Script {
            version: _,
            nodes: _,
            parts,
            commands,
        } = self;
        drop(parts);
        drop(commands);
    }
}

impl Script {
    /// A script of version 1 with no sets, clients or commands.
    pub fn new(alloc: Global, nodes: u8) -> Result<Script, AllocError>
        requires some_node { 0 < nodes }
        requires few_nodes { nodes ≤ MAX_NODES_OF_FIRST }
        ensures { IfOk result
            (λ s. s ≡ record { version = 1; nodes = nodes; sets = []; clients = []; commands = [] }) }
    {
        Script::of_version(alloc, 1, nodes)
    }

    /// A script of version 2 with no sets, clients or commands.
    pub fn new_v2(alloc: Global, nodes: u8) -> Result<Script, AllocError>
        requires some_node { 0 < nodes }
        requires few_nodes { nodes ≤ MAX_NODES }
        ensures { IfOk result
            (λ s. s ≡ record { version = 2; nodes = nodes; sets = []; clients = []; commands = [] }) }
    {
        Script::of_version(alloc, 2, nodes)
    }

    /// A script of version 3 with no sets, clients or commands.
    pub fn new_v3(alloc: Global, nodes: u8) -> Result<Script, AllocError>
        requires some_node { 0 < nodes }
        requires few_nodes { nodes ≤ MAX_NODES }
        ensures { IfOk result
            (λ s. s ≡ record { version = 3; nodes = nodes; sets = []; clients = []; commands = [] }) }
    {
        Script::of_version(alloc, 3, nodes)
    }

    /// A script of this version with no sets, clients or commands.
    pub(crate) fn of_version(alloc: Global, version: u8, nodes: u8) -> Result<Script, AllocError>
        requires version { (version ≡ 1) ⊎ ((version ≡ 2) ⊎ (version ≡ 3)) }
        requires some_node { 0 < nodes }
        requires few_nodes { nodes ≤ most_nodes version }
        ensures { IfOk result
            (λ s. s ≡ record { version = version; nodes = nodes; sets = []; clients = []; commands = [] }) }
    {
        let parts = Parts::new(alloc)?;
        let parts = Arc::new(alloc, parts)?;
        let commands = Arc::new(alloc, room_for_commands(alloc))?;
        Ok(Script {
            version,
            nodes,
            parts,
            commands,
        })
    }

    /// The same script once more.
    pub fn copy(&self, alloc: Global) -> Result<Script, AllocError>
        ensures { IfOk result (λ s. s ≡ self.now) }
    {
        let parts = Arc::try_clone(&self.parts)?;
        let commands = Arc::try_clone(&self.commands)?;
        Ok(Script {
            version: self.version,
            nodes: self.nodes,
            parts,
            commands,
        })
    }

    /// The same nodes, sets and clients, and no commands.
    pub fn without_commands(&self, alloc: Global) -> Result<Script, AllocError>
        ensures { IfOk result (λ s. s ≡ record self.now { commands = [] }) }
    {
        let parts = Arc::try_clone(&self.parts)?;
        let commands = Arc::new(alloc, Vec::new(alloc))?;
        Ok(Script {
            version: self.version,
            nodes: self.nodes,
            parts,
            commands,
        })
    }

    /// The version: 1, 2 or 3.
    pub fn version(&self) -> u8
        ensures version { result ≡ self.now.version }
        ensures kept { IsScript self.now }
    {
        self.version
    }

    /// The number of nodes.
    pub fn nodes(&self) -> u8
        ensures nodes { result ≡ self.now.nodes }
        ensures kept { IsScript self.now }
    {
        self.nodes
    }

    /// The number of sets.
    pub fn sets(&self) -> u32
        ensures { result ≡ length self.now.sets }
    {
        self.parts.sets.items().len() as u32
    }

    /// The number of clients.
    pub fn clients(&self) -> u16
        ensures clients { result ≡ length self.now.clients }
        ensures kept { IsScript self.now }
    {
        self.parts.clients.items().len() as u16
    }

    /// The number of commands.
    pub fn commands(&self) -> u64
        ensures { result ≡ length self.now.commands }
    {
        self.commands.len() as u64
    }

    pub fn set_name(&self, set: u32) -> &[u8]
        requires { set < length self.now.sets }
        ensures { result.now ≡ set_name self.now set }
    {
        self.parts.sets.items()[set as usize].name()
    }

    /// The number of the first set of the set's family.
    pub fn family(&self, set: u32) -> u32
        requires { set < length self.now.sets }
        ensures family { result ≡ family_at self.now.sets set }
        ensures earlier { result ≤ set }
        ensures first { family_at self.now.sets result ≡ result }
        ensures none_before { (k : ℕ) → k < result → family_at self.now.sets k ≢ result }
    {
        self.parts.sets.items()[set as usize].family()
    }

    /// The next set of the set's family.
    #[tactic(auto, using(crate::proofs::ChainLemmas::is_next_related, crate::proofs::ChainLemmas::is_last_related))]
    pub fn next_related(&self, set: u32) -> Option<u32>
        requires { set < length self.now.sets }
        ensures next { IfSome result (IsNextRelated self.now set) }
        ensures last { IfNone result (IsLastRelated self.now set) }
    {
        match self.parts.sets.next(set) {
            0 => None,
            next => Some(next),
        }
    }

    pub fn client_name(&self, client: u16) -> &[u8]
        requires { client < length self.now.clients }
        ensures { result.now ≡ client_name self.now client }
    {
        self.parts.clients.items()[usize::from(client)].name()
    }

    /// The client's node.
    pub fn home(&self, client: u16) -> u8
        requires { client < length self.now.clients }
        ensures { result ≡ home_at self.now.clients client }
    {
        self.parts.clients.items()[usize::from(client)].node()
    }

    /// A command by its place among all commands, with the client that makes it.
    pub fn command(&self, place: u64) -> (u16, Command)
        requires { place < length self.now.commands }
        ensures { slice_get self.now.commands place ≡ Some result }
    {
        self.commands[place as usize]
    }

    /// All commands in order, each with the client that makes it.
    pub fn requests(&self) -> &[(u16, Command)]
        ensures requests { result.now ≡ self.now.commands }
        ensures kept { IsScript self.now }
    {
        &self.commands
    }

    /// The sets in order.
    pub(crate) fn set_declarations(&self) -> &[SetDecl]
        ensures sets { result.now ≡ self.now.sets }
        ensures kept { IsScript self.now }
    {
        self.parts.sets.items()
    }

    /// The clients in order.
    pub(crate) fn client_declarations(&self) -> &[ClientDecl]
        ensures { result.now ≡ self.now.clients }
    {
        self.parts.clients.items()
    }

    /// The number of clients on the node.
    pub fn load(&self, node: u8) -> u16
        ensures { result ≡ load_of self.now.clients node }
    {
        load_of(self.parts.clients.items(), node) as u16
    }
}

// How many of the clients are on the node.
fn load_of(clients: &[ClientDecl], node: u8) -> usize
    ensures { result ≡ load_of clients.now node }
{
    let mut load = 0;
    for client in clients {
        if client.node() == node {
            load += 1;
        }
    }
    load
}
