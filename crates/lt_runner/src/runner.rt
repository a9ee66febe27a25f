ghost use Rattle.std.specs.Prelude.{◌≡◌, ◌≢◌, ◌<◌, ◌≤◌, ◌==◌, [], length, IfOk, IfSome, IfNone, IsSome, IsTrue};
ghost use Rattle.lt_spec.specs.World.{start};
ghost use Rattle.lt_spec.specs.declared.moves.TheConstants.{MAX_MOVES_OF_SERVICE};
ghost use Rattle.lt_node.specs.NodeData.{state_of};
ghost use Rattle.lt_mail.specs.Opening.{IsFresh};
ghost use Rattle.lt_runner.specs.declared.choice.Choice.TheVariants as choices;
ghost use Rattle.lt_runner.specs.declared.turning.Turned.TheVariants as turns;
ghost use Rattle.lt_runner.specs.declared.turning.Worked.TheVariants as answers;
ghost use Rattle.lt_runner.specs.Choices.{act_choice, next_choice};
ghost use Rattle.lt_runner.specs.Kept.{RunnerInvariant, HasAll, AsSeen, IsFlushed, HasPassedOn, Grew, TurnEnds, WorkEnds};
ghost use Rattle.lt_runner.specs.Ready.{StartsWith};

use crate::gate::Gate;
use crate::parts::Parts;
use crate::turning::{Turned, Worked};
use lt_desk::Out;
use lt_log::LongLog;
use lt_mail::Mail;
use lt_merge::Log;
use lt_node::Node;
use lt_script::{MAX_COMMANDS, Script};
use std::alloc::{AllocError, Global};
use std::marker::Model;

/// What runs a node: its state, its mail and its log.
pub struct Runner {
    // In a box, so that a runner that is claimed or given back is moved as one pointer.
    pub(crate) parts: Box<Parts>,
}

impl Model for Runner {
    ghost use Rattle.lt_runner.specs.declared.parts.Parts.{Parts as RunnerParts};
    ghost use Rattle.lt_runner.specs.Kept.{RunnerInvariant};

    ghost Value = { RunnerParts };

    ghost view = { λ r. r.parts.value };

    ghost invariant = { λ r. RunnerInvariant r.parts.value };
}

// Written out, so that all places which let a runner go call this.
impl Drop for Runner {
    fn drop(self) {
        let Runner { parts } = self;
        drop(parts);
    }
}

impl Runner {
    /// The runner of a node at the start of the script, which makes up to `limit` moves.
    ///
    /// Without memory the mail is dropped.
    pub fn new(
        alloc: Global,
        script: &Script,
        node: u8,
        mail: Mail,
        limit: u64,
    ) -> Result<Runner, AllocError>
        requires node { node < script.now.nodes }
        requires mail { IsFresh script.now.nodes node mail }
        requires limit { (0 < limit) × (limit ≤ MAX_MOVES_OF_SERVICE) }
        ensures starts { IfOk result (StartsWith script.now node mail limit) }
        ensures all { IfOk result HasAll }
    {
        let node = Node::new(alloc, script, node)?;
        Runner::of_node(alloc, script, node, mail, limit)
    }

    /// The runner of this node, which is at the start of the script; it makes up to `limit` moves.
    ///
    /// Without memory the node and the mail are dropped.
    pub fn of_node(
        alloc: Global,
        script: &Script,
        node: Node,
        mail: Mail,
        limit: u64,
    ) -> Result<Runner, AllocError>
        requires script { node.script ≡ script.now }
        requires node { node.me < script.now.nodes }
        requires state { state_of node ≡ (start script.now).node node.me }
        requires mail { IsFresh script.now.nodes node.me mail }
        requires limit { (0 < limit) × (limit ≤ MAX_MOVES_OF_SERVICE) }
        ensures starts { IfOk result (StartsWith script.now node.me mail limit) }
        ensures commands_gone { IfOk result (λ runner. runner.node.gone ≡ node.gone) }
    {
        let parts = begin(alloc, script, node, mail, limit)?;
        Ok(Runner {
            parts: Box::new(alloc, parts)?,
        })
    }

    /// The moves that its node has made, where none is forgotten.
    pub fn into_log(self) -> Option<Log>
        ensures log { IfSome result (λ log. log.entries ≡ self.log.entries) }
        ensures all { self.log.gone ≡ 0 → IsSome result }
        ensures forgotten { IfNone result (0 < self.log.gone) }
    {
        let Runner { parts } = self;
        Box::into_inner(parts).log.into_run()
    }

    /// Makes turns until `patience` of them, one after the other, found no move, or one can't make the move it found.
    ///
    /// A turn flushes the outboxes, looks for a letter and then for a client that can act, and makes the first move found.
    pub fn work<G: Gate>(&mut self, patience: u32, gate: &G) -> Worked
        ensures grew { Grew self.old self.new }
        ensures ends { WorkEnds result patience self.new }
        ensures flushed { 0 < patience → IsFlushed self.new }
        ensures at_once { patience ≡ 0 → (result ≡ answers.Idle) × (self.new ≡ self.old) }
    {
        self.parts.as_mut().work(patience, gate)
    }

    /// Makes one turn.
    pub fn turn<G: Gate>(&mut self, gate: &G) -> Turned
        ensures grew { Grew self.old self.new }
        ensures ends { TurnEnds result self.old self.new }
        ensures passed { HasPassedOn self.old self.new }
        ensures flushed { result ≢ turns.Moved → IsFlushed self.new }
        ensures shown { next_choice self.old ≢ choices.Nothing → result ≢ turns.Quiet }
    {
        self.parts.as_mut().turn(gate)
    }

    /// Makes turns until one makes no move or a letter was sent, and flushes the outboxes.
    pub fn work_until_sent<G: Gate>(&mut self, gate: &G) -> Worked
        ensures grew { Grew self.old self.new }
        ensures ends { WorkEnds result 0 self.new }
        ensures flushed { result ≡ answers.Idle → IsFlushed self.new }
    {
        self.parts.as_mut().work_until_sent(gate)
    }

    /// The nodes that letters went to since this was last asked, bit q % 64 for node q: a hint where to look for moves.
    #[tactic(auto, using(crate::proofs::KeptLemmas::seen_asked))]
    pub fn reached(&mut self) -> u64
        ensures seen { AsSeen self.old self.new }
        ensures flushed { IsFlushed self.old → IsFlushed self.new }
    {
        let parts = self.parts.as_mut();
        let reached = parts.reached;
        parts.reached = 0;
        reached
    }

    /// From now on a letter is looked for in the ring in which letters may be known, then in those of these nodes, bit
    /// q for node q; where letters may be known in several, in all rings. At first these nodes are all.
    #[tactic(auto, using(crate::proofs::KeptLemmas::seen_aimed))]
    pub fn look_for(&mut self, senders: u64)
        ensures seen { AsSeen self.old self.new }
        ensures flushed { IsFlushed self.old → IsFlushed self.new }
    {
        let parts = self.parts.as_mut();
        parts.senders = senders;
    }

    /// Whether no client could act when a move was last looked for, and nothing happened since.
    pub fn rests(&self) -> bool
        ensures { IsTrue result
            → act_choice self.now.node.script self.now.node.me (state_of self.now.node) ≡ choices.Nothing }
    {
        self.parts.idle
    }

    /// Whether as many moves were made as there may be.
    pub fn is_full(&self) -> bool
        ensures { result ≡ (length self.now.log.entries == self.now.limit) }
    {
        self.parts.moves() == self.parts.limit
    }

    /// The number of its node.
    pub fn me(&self) -> u8
        ensures { result ≡ self.now.node.me }
    {
        self.parts.node.me()
    }

    /// How many moves were made.
    pub fn moves(&self) -> u64
        ensures { result ≡ length self.now.log.entries }
    {
        self.parts.moves()
    }

    /// What a runner keeps.
    pub fn kept(&self)
        ensures { RunnerInvariant self.now }
    {
        let _ = &self.parts;
    }
}

fn begin(
    alloc: Global,
    script: &Script,
    node: Node,
    mail: Mail,
    limit: u64,
) -> Result<Parts, AllocError>
    requires script { node.script ≡ script.now }
    requires node { node.me < script.now.nodes }
    requires state { state_of node ≡ (start script.now).node node.me }
    requires mail { IsFresh script.now.nodes node.me mail }
    ensures kept { IfOk result RunnerInvariant }
    ensures starts { IfOk result (StartsWith script.now node.me mail limit) }
    ensures commands_gone { IfOk result (λ parts. parts.node.gone ≡ node.gone) }
{
    let log = first_log(alloc, script, limit)?;
    Ok(with_log(alloc, node, mail, log, limit))
}

// The parts at the start, with a log that has no moves yet.
fn with_log(alloc: Global, node: Node, mail: Mail, log: LongLog, limit: u64) -> Parts
    requires node { node.me < node.script.nodes }
    requires state { state_of node ≡ (start node.script).node node.me }
    requires mail { IsFresh node.script.nodes node.me mail }
    requires log { (log.entries ≡ []) × (log.gone ≡ 0) }
    ensures kept { RunnerInvariant result }
    ensures starts { StartsWith node.script node.me mail limit result }
    ensures commands_gone { result.node.gone ≡ node.gone }
{
    Parts {
        node,
        mail,
        log,
        out: Out::new(alloc),
        hand: None,
        limit,
        reached: 0,
        senders: u64::MAX,
        idle: false,
    }
}

// A log with no moves yet, and room for as many as there are commands for each node, with two lines each; for no more
// than a text has commands.
fn first_log(alloc: Global, script: &Script, limit: u64) -> Result<LongLog, AllocError>
    ensures { IfOk result (λ log. (log.entries ≡ []) × (log.gone ≡ 0)) }
{
    let moves = script.commands() / u64::from(script.nodes());
    let moves = moves.min(limit).min(u64::from(MAX_COMMANDS)) as usize;
    LongLog::with_room(alloc, moves, 2 * moves)
}
