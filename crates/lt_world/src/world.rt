mod behind;
mod full;
mod order;
mod ready;
mod turns;
mod voids;
mod waiting;

ghost use Rattle.std.specs.Prelude.{◌≡◌, ◌≤◌, ◌<◌, ◌+◌, ◌^◌, ◌↔◌, ℕ, [], ◌∷◌, ◌++◌, length, IsTrue, IsFalse, IsNone, IfOk, IfSome, OnSome, OnOk, OnErr, option_map, slice_index_or, slice_set};
ghost use Rattle.lt_spec.specs.declared.moves.TheConstants.{MAX_MOVES};
ghost use Rattle.lt_spec.specs.World.{is_runnable, is_enabled, is_at_rest, anyone_waits, is_waiting, has_mail, logged, IsRun, moves_of};
ghost use Rattle.lt_spec.specs.FixedOrder.{pick, count_turns};
ghost use Rattle.lt_world.specs.Choice.{choice_of};
ghost use Rattle.lt_world.specs.Fields.{world_of};

use crate::choice::Choice;
use crate::network::Network;
use lt_merge::Run;
use lt_modes::Step;
use lt_script::Script;
use lt_spec::MAX_MOVES;
use lt_turns::Turns;
pub use ready::Ready;
use std::alloc::{AllocError, Global};
use std::marker::Model;
use turns::{note_turns, turns_of};

/// The nodes of a script, the letters on their way, and the run so far, with a copy of the script.
pub struct World {
    script: Script,
    limit: u32,
    network: Network,
    // How many moves each node has made.
    moves: Vec<u32>,
    // The clients that can act, each by the number of commands that it has made.
    turns: Turns,
    // No node has made more moves.
    most: u32,
}

impl Model for World {
    ghost use Rattle.lt_world.specs.Fields.{WorldData, Stands};

    ghost Value = { WorldData };

    ghost view = { λ w. record { script = w.script; limit = w.limit; run = w.network.run.entries } };

    ghost invariant = { λ w. Stands w.script w.limit w.most w.network.nodes.items w.network.inboxes w.moves.items w.turns w.network.out w.network.run.entries };
}

// Written out, so that all places which let a world go call this.
impl Drop for World {
    fn drop(self) {
        let World {
            script,
            limit: _,
            network,
            moves,
            turns,
            most: _,
        } = self;
        drop(script);
        drop(network);
        drop(moves);
        drop(turns);
    }
}

impl World {
    /// The world at the start of a script, in which a node may make up to `limit` moves.
    pub fn new(alloc: Global, script: &Script, limit: u32) -> Result<World, AllocError>
        requires { (0 < limit) × (limit ≤ MAX_MOVES) }
        ensures { IfOk result (λ w. w ≡ record { script = script.now; limit = limit; run = [] }) }
    {
        let network = Network::new(alloc, script)?;
        let moves = no_moves(alloc, script.nodes())?;
        let turns = turns_of(alloc, script, &network)?;
        let script = script.copy(alloc)?;
        Ok(World {
            script,
            limit,
            network,
            moves,
            turns,
            most: 0,
        })
    }

    /// Whether the node can make the move now.
    pub fn enabled(&self, choice: Choice) -> bool
        ensures { result ≡ is_enabled self.now.script (world_of self.now) choice.node choice.step }
    {
        match choice.step {
            Step::Act(client) => client < self.script.clients()
                && (self.script.home(client) == choice.node && self.is_runnable(client)),
            Step::Take(sender) => self.has_mail(sender, choice.node),
        }
    }

    /// Whether no move is enabled.
    pub fn at_rest(&self) -> bool
        ensures { result ≡ is_at_rest self.now.script (world_of self.now) }
    {
        if self.count_acts() > 0 {
            return false;
        }
        self.count_takes() == 0
    }

    /// The number of enabled moves.
    pub fn count(&self) -> u32
        ensures { result ≡ count_turns self.now.script (world_of self.now) }
    {
        self.count_takes() + self.count_acts()
    }

    /// Whether some client waits.
    pub fn anyone_waits(&self) -> bool
        ensures { result ≡ anyone_waits self.now.script (world_of self.now) }
    {
        for client in 0..self.script.clients() {
            if self.is_waiting(client) {
                return true;
            }
        }
        false
    }

    /// The enabled move at place `k`, from 0: takes before acts; takes by receiver and then by sender; acts by the number of
    /// commands that the client has made, and then in the order of the clients' declaration.
    #[inline(always)]
    pub fn pick(&self, k: u32) -> Option<Choice>
        ensures place { result ≡ option_map choice_of (pick self.now.script (world_of self.now) k) }
        ensures enabled { IfSome result (λ choice. IsTrue (is_enabled self.now.script (world_of self.now) choice.node choice.step)) }
        ensures none { IsNone result ↔ (count_turns self.now.script (world_of self.now) ≤ k) }
        ensures going { OnSome result (IsFalse (is_at_rest self.now.script (world_of self.now))) }
        ensures rest { IsNone result → k ≡ 0 → IsTrue (is_at_rest self.now.script (world_of self.now)) }
    {
        self.turn_at(k)
    }

    /// Makes an enabled move of a node that has made fewer moves than the limit.
    pub fn step(&mut self, choice: Choice) -> Result<(), AllocError>
        requires enabled { IsTrue (is_enabled self.old.script (world_of self.old) choice.node choice.step) }
        requires room { moves_of choice.node self.old.run < self.old.limit }
        ensures ok { OnOk result (self.new ≡ record self.old { run = self.old.run ++ logged self.old.script (world_of self.old) choice.node choice.step ∷ [] }) }
        ensures err { OnErr result (self.new ≡ self.old) }
    {
        self.network.step(&self.script, choice)?;
        count_move(&mut self.moves, &mut self.most, choice.node);
        note_turns(&mut self.turns, &self.script, &self.network, choice.step);
        Ok(())
    }

    /// The moves made so far.
    pub fn run(&self) -> &Run
        ensures { result.now.entries ≡ self.now.run }
    {
        &self.network.run
    }

    /// The moves made, without the world.
    pub fn into_run(self) -> Run
        ensures run { result.entries ≡ self.run }
        ensures is_run { IsRun self.script self.run }
    {
        let World {
            script,
            limit: _,
            network,
            moves,
            turns,
            most: _,
        } = self;
        drop(script);
        drop(moves);
        drop(turns);
        network.into_run()
    }

    // Whether the client has a command left that it can make now.
    fn is_runnable(&self, client: u16) -> bool
        requires { client < length self.now.script.clients }
        ensures { result ≡ is_runnable self.now.script (world_of self.now) client }
    {
        self.turns.number(client).is_some()
    }

    // Whether the client waits.
    fn is_waiting(&self, client: u16) -> bool
        requires { client < length self.now.script.clients }
        ensures { result ≡ is_waiting self.now.script (world_of self.now) client }
    {
        let home = usize::from(self.script.home(client));
        self.network.nodes[home].waits(client)
    }

    // Whether a letter is on its way from the sender to the receiver.
    fn has_mail(&self, sender: u8, receiver: u8) -> bool
        ensures { result ≡ has_mail self.now.script (world_of self.now) sender receiver }
    {
        let nodes = self.script.nodes();
        sender < nodes
            && (receiver < nodes
                && (sender != receiver && self.network.inboxes.has_mail(sender, receiver)))
    }
}

// No move of so many nodes.
fn no_moves(alloc: Global, nodes: u8) -> Result<Vec<u32>, AllocError>
    ensures count { IfOk result (λ moves. length moves.items ≡ nodes) }
    ensures none { IfOk result (λ moves. (q : ℕ) → slice_index_or moves.items q 0 ≡ 0) }
{
    let mut moves = Vec::new(alloc);
    moves.resize(usize::from(nodes), 0)?;
    Ok(moves)
}

// Counts a move of the node.
fn count_move(moves: &mut Vec<u32>, most: &mut u32, node: u8)
    requires node { node < length moves.old.items }
    requires few { slice_index_or moves.old.items node 0 + 1 < 2 ^ 32 }
    ensures moves { moves.new.items ≡ slice_set moves.old.items node (slice_index_or moves.old.items node 0 + 1) }
    ensures own { slice_index_or moves.old.items node 0 + 1 ≤ most.new }
    ensures most { most.old ≤ most.new }
{
    let made = &mut moves[usize::from(node)];
    *made += 1;
    *most = (*most).max(*made);
}
