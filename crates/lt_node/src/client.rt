ghost use Rattle.std.specs.Prelude.{◌≡◌, ◌<◌, ◌+◌, ◌==◌, ◌^◌, ◌++◌, ◌∷◌, [], ℕ, length, nat_lt, IfOk, OnOk, slice_index_or, if◌then◌else◌};
ghost use Rattle.lt_spec.specs.Script.{IsScript};
ghost use Rattle.lt_spec.specs.NodeMove.{commands_of, home};
ghost use Rattle.lt_node.specs.Clients.{HaveFirst, homes_in, with_own_request, progress_of, no_progress, next_of, one_command_more, with_command};

use lt_log::History;
use lt_modes::Command;
use lt_script::Script;
use std::alloc::{AllocError, Global};
use std::marker::Model;

/// The commands that are kept of a client, and how many of these it has made.
#[derive(Drop)]
pub(crate) struct KeptCommands {
    pub(crate) commands: Vec<Command>,
    made: u64,
}

/// A client's commands, and how many of them it has made. Those can be forgotten: then only proofs know them.
#[derive(Drop)]
pub(crate) struct Client {
    // What was kept each time when the commands that were made were forgotten.
    past: History<KeptCommands>,
    // How many commands were forgotten.
    gone: u64,
    pub(crate) kept: KeptCommands,
}

impl Model for Client {
    ghost use Rattle.std.specs.Prelude.{◌+◌, ◌++◌};
    ghost use Rattle.lt_node.specs.Clients.{Progress};
    ghost use Rattle.lt_node.specs.Forgetting.{HasMade, past_made};

    ghost Value = { Progress };

    ghost view = { λ c. record {
      commands = past_made c.past.items ++ c.kept.commands.items;
      made = c.gone + c.kept.made;
    } };

    ghost invariant = { λ c. HasMade c.past.items c.gone c.kept };
}

impl Client {
    /// A client with no command, and room for so many.
    pub(crate) fn with_room(alloc: Global, room: usize) -> Result<Client, AllocError>
        ensures { IfOk result (λ client. client ≡ no_progress) }
    {
        Ok(Client {
            past: History::new(),
            gone: 0,
            kept: KeptCommands {
                commands: Vec::with_capacity(alloc, room)?,
                made: 0,
            },
        })
    }

    /// Adds a command behind the others.
    pub(crate) fn add(&mut self, command: Command) -> Result<(), AllocError>
        ensures { OnOk result (self.new ≡ with_command self.old command) }
    {
        self.kept.commands.push(command)?;
        Ok(())
    }

    /// How many commands the client has made.
    pub(crate) fn made(&self) -> u64
        ensures { result ≡ self.now.made }
    {
        self.gone + self.kept.made
    }

    /// Whether a command is left.
    pub(crate) fn has_next(&self) -> bool
        ensures { result ≡ nat_lt self.now.made (length self.now.commands) }
    {
        (self.kept.made as usize) < self.kept.commands.len()
    }

    /// The next command.
    pub(crate) fn upcoming(&self) -> Command
        requires { self.now.made < length self.now.commands }
        ensures { result ≡ next_of self.now }
    {
        self.kept.commands[self.kept.made as usize]
    }

    /// Hands out the next command.
    pub(crate) fn next(&mut self) -> Command
        requires left { self.old.made < length self.old.commands }
        requires few { self.old.made + 1 < 2 ^ 64 }
        ensures command { result ≡ next_of self.old }
        ensures made { self.new ≡ one_command_more self.old }
    {
        let command = self.upcoming();
        self.kept.made += 1;
        command
    }

    /// Forgets the commands that were made.
    pub(crate) fn forget_made(&mut self)
        ensures { self.new ≡ self.old }
    {
        self.past = self.past.and(&self.kept);
        self.gone += self.kept.made;
        self.kept.commands.drain(..self.kept.made as usize);
        self.kept.made = 0;
    }
}

/// The clients before their first command, as the node keeps them: the commands of another node's client stay with
/// that node.
pub(crate) fn clients_of(
    alloc: Global,
    script: &Script,
    homes: &[u8],
    node: u8,
) -> Result<Vec<Client>, AllocError>
    requires script { IsScript script.now }
    requires homes { homes.now ≡ homes_in script.now }
    ensures count { IfOk result (λ clients. length clients.items ≡ length script.now.clients) }
    ensures each { IfOk result (λ clients. (c : ℕ) → c < length clients.items → slice_index_or clients.items c no_progress
        ≡ record { commands = if home script.now c == node then commands_of script.now c else []; made = 0 }) }
{
    let mut clients = idle_clients(alloc, script, node)?;
    add_requests(&mut clients, script, homes, node)?;
    Ok(clients)
}

// A client with no command for each one of the script; those of the node have room for an equal part of the commands.
fn idle_clients(alloc: Global, script: &Script, node: u8) -> Result<Vec<Client>, AllocError>
    ensures count { IfOk result (λ clients. length clients.items ≡ length script.now.clients) }
    ensures idle { IfOk result (λ clients. (c : ℕ) → progress_of clients.items c ≡ no_progress) }
{
    let count = script.clients();
    let part = script.commands() / u64::from(count.max(1));
    let mut clients = Vec::with_capacity(alloc, usize::from(count))?;
    for client in 0..count {
        let own = script.home(client) == node;
        let room = if own { part } else { 0 };
        push_idle(alloc, &mut clients, room as usize)?;
    }
    Ok(clients)
}

/// One more client, with no command, and room for so many.
pub(crate) fn push_idle(
    alloc: Global,
    clients: &mut Vec<Client>,
    room: usize,
) -> Result<(), AllocError>
    ensures { OnOk result (clients.new.items ≡ clients.old.items ++ no_progress ∷ []) }
{
    let client = Client::with_room(alloc, room)?;
    clients.push(client)?;
    Ok(())
}

// The clients of the node get their commands, in order.
fn add_requests(
    clients: &mut Vec<Client>,
    script: &Script,
    homes: &[u8],
    node: u8,
) -> Result<(), AllocError>
    requires script { IsScript script.now }
    requires homes { homes.now ≡ homes_in script.now }
    requires count { length clients.old.items ≡ length script.now.clients }
    requires idle { (c : ℕ) → progress_of clients.old.items c ≡ no_progress }
    ensures count { OnOk result (length clients.new.items ≡ length script.now.clients) }
    ensures each { OnOk result (HaveFirst script.now node (length script.now.commands) clients.new.items) }
{
    let requests = script.requests();
    for place in 0..requests.len() {
        add_request(clients, homes, node, &requests[place])?;
    }
    Ok(())
}

// The command goes to its client, where that is one of the node's.
fn add_request(
    clients: &mut Vec<Client>,
    homes: &[u8],
    node: u8,
    request: &(u16, Command),
) -> Result<(), AllocError>
    requires client { request.now.0 < length homes.now }
    requires count { length clients.old.items ≡ length homes.now }
    ensures { OnOk result (clients.new.items ≡ with_own_request homes.now node request.now clients.old.items) }
{
    let client = usize::from(request.0);
    if homes[client] == node {
        clients[client].add(request.1)?;
    }
    Ok(())
}

/// The node of each client.
pub(crate) fn homes_of(alloc: Global, script: &Script) -> Result<Vec<u8>, AllocError>
    ensures script { IsScript script.now }
    ensures homes { IfOk result (λ homes. homes.items ≡ homes_in script.now) }
{
    let mut homes = Vec::with_capacity(alloc, usize::from(script.clients()))?;
    for client in 0..script.clients() {
        homes.push_reserved(script.home(client));
    }
    Ok(homes)
}
