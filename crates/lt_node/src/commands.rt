// The commands of a script by their clients, which all nodes get in one pass over the script.
ghost use Rattle.std.specs.Prelude.{◌≡◌, ◌<◌, ◌+◌, ◌==◌, ℕ, length, IfOk, OnOk, OnErr, slice_set, if◌then◌else◌};
ghost use Rattle.lt_spec.specs.NodeMove.{home};
ghost use Rattle.lt_node.specs.Clients.{HaveAmong, HaveFrom, ListsFrom, AreAtStart, with_request_at, progress_of, no_progress};

use crate::client::{Client, homes_of, push_idle};
use lt_modes::Command;
use lt_script::Script;
use std::alloc::{AllocError, Global};
use std::marker::Model;
use std::mem::swap;

/// The commands of a script, in a list for each client, until the clients' nodes take them.
#[derive(Drop)]
pub struct Commands {
    lists: Vec<Client>,
    // The node of each client.
    homes: Vec<u8>,
}

impl Model for Commands {
    ghost use Rattle.lt_node.specs.Clients.{CommandsData};

    ghost Value = { CommandsData };

    ghost view = { λ c. record { lists = c.lists.items; homes = c.homes.items } };
}

impl Commands {
    /// The commands of all clients.
    pub fn new(alloc: Global, script: &Script) -> Result<Commands, AllocError>
        ensures { IfOk result (HaveFrom script.now 0) }
    {
        let mut lists = empty_lists(alloc, script)?;
        add_requests(&mut lists, script)?;
        let homes = homes_of(alloc, script)?;
        Ok(Commands { lists, homes })
    }

    /// The node of each client.
    pub(crate) fn homes(&self, alloc: Global) -> Result<Vec<u8>, AllocError>
        ensures { IfOk result (λ homes. homes.items ≡ self.now.homes) }
    {
        let mut homes = Vec::new(alloc);
        homes.extend_from_slice(&self.homes)?;
        Ok(homes)
    }

    /// The clients before their first command, as the node keeps them: it takes the lists of its own ones.
    pub(crate) fn take(
        &mut self,
        alloc: Global,
        script: &Script,
        node: u8,
    ) -> Result<Vec<Client>, AllocError>
        requires { HaveFrom script.now node self.old }
        ensures count { IfOk result (λ clients. length clients.items ≡ length script.now.clients) }
        ensures each { IfOk result (λ clients. AreAtStart script.now node clients.items) }
        ensures left { HaveFrom script.now (node + 1) self.new }
    {
        take_own(alloc, &mut self.lists, script, node)
    }
}

// A list with no command for each client, with room for an equal part of the commands.
fn empty_lists(alloc: Global, script: &Script) -> Result<Vec<Client>, AllocError>
    ensures count { IfOk result (λ lists. length lists.items ≡ length script.now.clients) }
    ensures idle { IfOk result (λ lists. (c : ℕ) → progress_of lists.items c ≡ no_progress) }
{
    let count = script.clients();
    let part = script.commands() / u64::from(count.max(1));
    let mut lists = Vec::with_capacity(alloc, usize::from(count))?;
    for _client in 0..count {
        push_idle(alloc, &mut lists, part as usize)?;
    }
    Ok(lists)
}

// The clients get their commands, in order.
fn add_requests(lists: &mut Vec<Client>, script: &Script) -> Result<(), AllocError>
    requires count { length lists.old.items ≡ length script.now.clients }
    requires idle { (c : ℕ) → progress_of lists.old.items c ≡ no_progress }
    ensures count { OnOk result (length lists.new.items ≡ length script.now.clients) }
    ensures each { OnOk result (HaveAmong script.now (length script.now.commands) lists.new.items) }
{
    let requests = script.requests();
    for place in 0..requests.len() {
        add_request(lists, &requests[place])?;
    }
    Ok(())
}

// The command goes to its client.
fn add_request(lists: &mut Vec<Client>, request: &(u16, Command)) -> Result<(), AllocError>
    requires { request.now.0 < length lists.old.items }
    ensures { OnOk result (lists.new.items ≡ with_request_at request.now lists.old.items) }
{
    lists[usize::from(request.0)].add(request.1)?;
    Ok(())
}

// The clients as the node keeps them, of which its own ones come out of the lists.
fn take_own(
    alloc: Global,
    lists: &mut Vec<Client>,
    script: &Script,
    node: u8,
) -> Result<Vec<Client>, AllocError>
    requires { ListsFrom script.now node lists.old.items }
    ensures count { IfOk result (λ clients. length clients.items ≡ length script.now.clients) }
    ensures each { IfOk result (λ clients. AreAtStart script.now node clients.items) }
    ensures left { ListsFrom script.now (node + 1) lists.new.items }
{
    let mut clients = Vec::with_capacity(alloc, usize::from(script.clients()))?;
    for client in 0..script.clients() {
        let next = take_next(alloc, lists, script, node, client)?;
        clients.push_reserved(next);
    }
    Ok(clients)
}

// The client as the node keeps it, out of its list where it is one of the node.
fn take_next(
    alloc: Global,
    lists: &mut Vec<Client>,
    script: &Script,
    node: u8,
    client: u16,
) -> Result<Client, AllocError>
    requires client { client < length script.now.clients }
    requires count { length lists.old.items ≡ length script.now.clients }
    ensures taken { IfOk result (λ taken. taken
        ≡ if home script.now client == node then progress_of lists.old.items client else no_progress) }
    ensures left { OnOk result (lists.new.items
        ≡ if home script.now client == node then slice_set lists.old.items client no_progress else lists.old.items) }
    ensures unchanged { OnErr result (lists.new.items ≡ lists.old.items) }
{
    let mut taken = Client::with_room(alloc, 0)?;
    if script.home(client) == node {
        swap(&mut taken, &mut lists[usize::from(client)]);
    }
    Ok(taken)
}
