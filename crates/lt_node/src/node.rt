ghost use Rattle.std.specs.Prelude.{◌≡◌, ◌<◌, ◌+◌, ◌&&◌, ◌^◌, ℕ, length, IfOk, slice_index_or};
ghost use Rattle.lt_modes.specs.Fits.{fits, numbers_of};
ghost use Rattle.lt_desk.specs.LetterSeen.{letter_seen};
ghost use Rattle.lt_core.specs.Steps.{rule_numbers as numbers_seen};
ghost use Rattle.lt_spec.specs.NodeMove.{home, node_waits, is_free_at, has_command, act_stamp, take_stamp};
ghost use Rattle.lt_spec.specs.World.{start};
ghost use Rattle.lt_spec.specs.Script.{IsScript};
ghost use Rattle.lt_node.specs.NodeData.{IsNode, state_of, kept_script};
ghost use Rattle.lt_node.specs.Clients.{AreAtStart, HaveFrom, homes_in};

use crate::client::{Client, clients_of, homes_of};
use crate::commands::Commands;
use crate::long_script::LongScript;
use crate::own::own_of;
use crate::sets::Sets;
use lt_core::Numbers;
use lt_desk::Letter;
use lt_modes::Stamp;
use lt_script::Script;
use std::alloc::{AllocError, Global};
use std::marker::Model;

/// One node of a script, of which it has a copy: all its sets and its clients.
pub struct Node {
    pub(crate) script: LongScript,
    pub(crate) me: u8,
    pub(crate) clock: u64,
    // The node of each client, by which letters are tested.
    homes: Vec<u8>,
    // All clients of the script; the commands only of this node's own.
    pub(crate) clients: Vec<Client>,
    // The clients of this node, in order.
    pub(crate) own: Vec<u16>,
    pub(crate) sets: Sets,
}

impl Model for Node {
    ghost use Rattle.std.specs.Prelude.{length, map};
    ghost use Rattle.lt_node.specs.NodeData.{NodeData, IsNode};
    ghost use Rattle.lt_node.specs.Sets.{AreSetsOf};
    ghost use Rattle.lt_node.specs.Clients.{progress_made, KnowsClients, AreOwn};

    ghost Value = { NodeData };

    ghost view = { λ n. record {
      script = n.script.whole;
      gone = n.script.gone;
      me = n.me;
      clock = n.clock;
      made = map progress_made n.clients.items;
      cores = n.sets.cores;
    } };

    ghost invariant = { λ n. IsNode (record {
      script = n.script.whole;
      gone = n.script.gone;
      me = n.me;
      clock = n.clock;
      made = map progress_made n.clients.items;
      cores = n.sets.cores;
    }) × KnowsClients n.script.whole n.me n.homes.items n.clients.items
        × AreSetsOf n.script.whole n.me n.sets
        × AreOwn n.script.whole.clients n.me 0 (length n.script.whole.clients) n.own.items };
}

// Written out, so that all places which let a node go call this.
impl Drop for Node {
    fn drop(self) {
        let Node {
            script,
            me: _,
            clock: _,
            homes,
            clients,
            own,
            sets,
        } = self;
        drop(script);
        drop(homes);
        drop(clients);
        drop(own);
        drop(sets);
    }
}

impl Node {
    /// The node at the start of the script.
    pub fn new(alloc: Global, script: &Script, node: u8) -> Result<Node, AllocError>
        requires { node < script.now.nodes }
        ensures script { IfOk result (λ made. made.script ≡ script.now) }
        ensures gone { IfOk result (λ made. made.gone ≡ 0) }
        ensures me { IfOk result (λ made. made.me ≡ node) }
        ensures state { IfOk result (λ made. state_of made ≡ (start script.now).node node) }
    {
        let homes = homes_of(alloc, script)?;
        let clients = clients_of(alloc, script, &homes, node)?;
        Node::begin(alloc, script, node, homes, clients)
    }

    /// The node at the start of the script. It takes the commands of its clients, and leaves those of later nodes, also
    /// if memory runs out; its own clients' may then be lost.
    pub fn with_commands(
        alloc: Global,
        script: &Script,
        node: u8,
        commands: &mut Commands,
    ) -> Result<Node, AllocError>
        requires node { node < script.now.nodes }
        requires commands { HaveFrom script.now node commands.old }
        ensures script { IfOk result (λ made. made.script ≡ script.now) }
        ensures gone { IfOk result (λ made. made.gone ≡ 0) }
        ensures me { IfOk result (λ made. made.me ≡ node) }
        ensures state { IfOk result (λ made. state_of made ≡ (start script.now).node node) }
        ensures left { HaveFrom script.now (node + 1) commands.new }
    {
        let homes = commands.homes(alloc)?;
        let clients = commands.take(alloc, script, node)?;
        Node::begin(alloc, script, node, homes, clients)
    }

    // The node at the start of the script, with its clients.
    fn begin(
        alloc: Global,
        script: &Script,
        node: u8,
        homes: Vec<u8>,
        clients: Vec<Client>,
    ) -> Result<Node, AllocError>
        requires script { IsScript script.now }
        requires node { node < script.now.nodes }
        requires homes { homes.items ≡ homes_in script.now }
        requires count { length clients.items ≡ length script.now.clients }
        requires each { AreAtStart script.now node clients.items }
        ensures script { IfOk result (λ made. made.script ≡ script.now) }
        ensures gone { IfOk result (λ made. made.gone ≡ 0) }
        ensures me { IfOk result (λ made. made.me ≡ node) }
        ensures state { IfOk result (λ made. state_of made ≡ (start script.now).node node) }
    {
        let own = own_of(alloc, script, node)?;
        let kept = script.copy(alloc)?;
        let sets = Sets::new(alloc, script, node)?;
        Ok(Node {
            script: LongScript::of(kept),
            me: node,
            clock: 0,
            homes,
            clients,
            own,
            sets,
        })
    }

    /// The node's number.
    pub fn me(&self) -> u8
        ensures me { result ≡ self.now.me }
        ensures kept { IsNode self.now }
    {
        self.me
    }

    /// The script without the commands that were forgotten.
    pub fn script(&self) -> &Script
        ensures kept { result.now ≡ kept_script self.now }
        ensures whole { self.now.gone ≡ 0 → result.now ≡ self.now.script }
    {
        self.script.kept()
    }

    /// How many commands the script has, forgotten or not.
    pub fn commands(&self) -> u64
        ensures { result ≡ length self.now.script.commands }
    {
        self.script.commands()
    }

    /// How many commands of the script were forgotten.
    pub fn forgotten(&self) -> u64
        ensures { result ≡ self.now.gone }
    {
        self.script.forgotten()
    }

    pub fn clock(&self) -> u64
        ensures { result ≡ self.now.clock }
    {
        self.clock
    }

    /// How many commands the client has made here.
    pub fn made(&self, client: u16) -> u64
        requires { client < length self.now.script.clients }
        ensures { result ≡ (state_of self.now).made client }
    {
        self.clients[usize::from(client)].made()
    }

    /// Whether an ask of the client is unanswered, and not given up, in some set.
    pub fn waits(&self, client: u16) -> bool
        ensures { result ≡ node_waits self.now.script (state_of self.now) client }
    {
        self.sets.waits(client)
    }

    /// Whether the client, of this node, has a command left, and doesn't wait or gives up by it what it waits for.
    #[tactic(auto, using(crate::proofs::FreeLemmas::none_left, crate::proofs::FreeLemmas::some_left))]
    pub fn runnable(&self, client: u16) -> bool
        requires client { client < length self.now.script.clients }
        requires home { home self.now.script client ≡ self.now.me }
        ensures { result ≡ (is_free_at self.now.script (state_of self.now) client && has_command self.now.script (state_of self.now) client) }
    {
        if !self.has_command(client) {
            return false;
        }
        self.is_free(client)
    }

    /// The stamp of the next command that is made here.
    pub fn stamp_of_act(&self) -> Stamp
        requires { self.now.clock + 1 < 2 ^ 64 }
        ensures { result ≡ act_stamp self.now.me (state_of self.now) }
    {
        Stamp {
            clock: self.clock + 1,
            node: self.me,
        }
    }

    /// The stamp with which the letter is taken.
    pub fn stamp_of_take(&self, letter: &Letter) -> Stamp
        requires node { self.now.clock + 1 < 2 ^ 64 }
        requires letter { letter.now.stamp.clock + 1 < 2 ^ 64 }
        ensures { result ≡ take_stamp self.now.me (state_of self.now) (letter_seen letter.now) }
    {
        Stamp {
            clock: self.clock.max(letter.stamp.clock) + 1,
            node: self.me,
        }
    }

    /// Whether the node can be sent the letter now. Takes no memory.
    pub fn fits(&self, letter: &Letter) -> bool
        ensures { result ≡ fits (numbers_of self.now.script) self.now.me self.now.clock ((state_of self.now).set letter.now.set) (letter_seen letter.now) }
    {
        letter.set < self.sets.count()
            && self
                .sets
                .core(letter.set)
                .fits(self.clock, letter, &self.numbers())
    }

    // The numbers of the script by which letters are tested.
    fn numbers(&self) -> Numbers<'_>
        ensures { numbers_seen result ≡ numbers_of self.now.script }
    {
        Numbers {
            nodes: self.script.kept().nodes(),
            sets: self.script.kept().sets(),
            homes: &self.homes,
        }
    }
}
