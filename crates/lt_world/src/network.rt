mod reserving;

ghost use Rattle.std.specs.Prelude.{◌≡◌, ◌<◌, ◌+◌, ◌^◌, ℕ, [], ◌∷◌, ◌++◌, All, length, slice_set, IsTrue, IfOk, OnOk, OnErr};
ghost use Rattle.lt_modes.specs.State as rules;
ghost use Rattle.lt_modes.specs.declared.moves.Step.TheVariants.{Act, Take};
ghost use Rattle.lt_spec.specs.World.{start, is_enabled};
ghost use Rattle.lt_desk.specs.LetterSeen.{letter_seen};
ghost use Rattle.lt_spec.specs.NodeMove.{node_act, node_take, act_stamp, take_stamp};
ghost use Rattle.lt_node.specs.NodeData.{NodeDoes, state_of, RoomToTake};
ghost use Rattle.lt_node.specs.Touched.{RoomToAct};
ghost use Rattle.lt_inbox.specs.Mail.{AreDelivered};
ghost use Rattle.lt_spec.specs.Script.{IsScript};
ghost use Rattle.lt_world.specs.Fields.{CanAct, CanTake, IsAfterRun, world_in, run_with, IsReserved, step_of, IsNodeOf, InboxRoom, node_at};
ghost use Rattle.lt_world.specs.declared.reserved.Reserved.TheVariants.{Acting, Taking};

use crate::choice::Choice;
use crate::recording::note_events;
use crate::reserved::Reserved;
use lt_desk::{Letter, Out};
use lt_inbox::Inboxes;
use lt_merge::Run;
use lt_modes::{Move, Stamp, Step};
use lt_node::{Commands, Node};
use lt_script::Script;
use std::alloc::{AllocError, Global};

/// The nodes of a script, the letters on their way to each of them, and the moves made.
pub(crate) struct Network {
    pub(crate) nodes: Vec<Node>,
    pub(crate) inboxes: Inboxes,
    // What a move sends out, on its way to the inboxes and into the run; nothing between moves.
    pub(crate) out: Out,
    pub(crate) run: Run,
}

// Written out, so that all places which let a network go call this.
impl Drop for Network {
    fn drop(self) {
        let Network {
            nodes,
            inboxes,
            out,
            run,
        } = self;
        drop(nodes);
        drop(inboxes);
        drop(out);
        drop(run);
    }
}

impl Network {
    /// The nodes of the script at its start.
    pub(crate) fn new(alloc: Global, script: &Script) -> Result<Network, AllocError>
        ensures holds { IfOk result (IsAfterRun script.now) }
        ensures start { IfOk result (λ n. n.run.entries ≡ []) }
    {
        let nodes = nodes_of(alloc, script)?;
        let inboxes = Inboxes::new(alloc, script.nodes())?;
        Ok(Network {
            nodes,
            inboxes,
            out: Out::new(alloc),
            run: first_run(alloc, script)?,
        })
    }

    /// The moves made, without the rest.
    pub(crate) fn into_run(self) -> Run
        ensures { result ≡ self.run }
    {
        let Network {
            nodes,
            inboxes,
            out,
            run,
        } = self;
        drop(nodes);
        drop(inboxes);
        drop(out);
        run
    }

    /// Makes the move. Where memory is refused, all stand as they did.
    pub(crate) fn step(&mut self, script: &Script, choice: Choice) -> Result<(), AllocError>
        requires holds { IsAfterRun script.now self.old }
        requires enabled { IsTrue (is_enabled script.now (world_in script.now self.old) choice.node choice.step) }
        requires few { length self.old.run.entries + 1 < 2 ^ 62 }
        ensures holds { IsAfterRun script.now self.new }
        ensures ok { OnOk result (self.new.run.entries ≡ run_with script.now self.old.run.entries choice.node choice.step) }
        ensures err { OnErr result (self.new.run.entries ≡ self.old.run.entries) }
    {
        match choice.step {
            Step::Act(client) => {
                self.reserve_act(script, choice.node, client)?;
                self.act(script, choice.node, client);
            }
            Step::Take(sender) => self.take_front(script, choice.node, sender)?,
        }
        Ok(())
    }

    // This node takes the front letter of the sender. Where memory is refused, the letter goes back.
    fn take_front(&mut self, script: &Script, node: u8, sender: u8) -> Result<(), AllocError>
        requires holds { IsAfterRun script.now self.old }
        requires enabled { IsTrue (is_enabled script.now (world_in script.now self.old) node (Take sender)) }
        requires few { length self.old.run.entries + 1 < 2 ^ 62 }
        ensures holds { IsAfterRun script.now self.new }
        ensures ok { OnOk result (self.new.run.entries ≡ run_with script.now self.old.run.entries node (Take sender)) }
        ensures err { OnErr result (self.new.run.entries ≡ self.old.run.entries) }
    {
        let mut letter = self.inboxes.pop_front(sender, node);
        if let Err(error) = self.reserve_letter(node, &mut letter) {
            self.inboxes.put_front(sender, node, letter);
            return Err(error);
        }
        self.take(script, node, sender, letter);
        Ok(())
    }

    /// Makes the move for which room was made.
    pub(crate) fn make(&mut self, script: &Script, node: u8, reserved: Reserved)
        requires { IsReserved script.now self.old node reserved }
        ensures holds { IsAfterRun script.now self.new }
        ensures entries { self.new.run.entries ≡ run_with script.now self.old.run.entries node (step_of reserved) }
    {
        match reserved {
            Reserved::Acting { client } => self.act(script, node, client),
            Reserved::Taking { sender, letter } => self.take(script, node, sender, letter),
        }
    }

    // Makes the next command of a client of this node.
    fn act(&mut self, script: &Script, node: u8, client: u16)
        requires { IsReserved script.now self.old node (Acting client) }
        ensures holds { IsAfterRun script.now self.new }
        ensures entries { self.new.run.entries ≡ run_with script.now self.old.run.entries node (Act client) }
    {
        let stamp = act_at(&mut self.nodes, node, client, &mut self.out);
        let step = Step::Act(client);
        record_move(
            &mut self.inboxes,
            &mut self.run,
            Move { stamp, step },
            &mut self.out,
        );
    }

    // This node takes the letter of the sender.
    fn take(&mut self, script: &Script, node: u8, sender: u8, letter: Letter)
        requires { IsReserved script.now self.old node (Taking sender letter) }
        ensures holds { IsAfterRun script.now self.new }
        ensures entries { self.new.run.entries ≡ run_with script.now self.old.run.entries node (Take sender) }
    {
        let stamp = take_at(&mut self.nodes, node, letter, &mut self.out);
        let step = Step::Take(sender);
        record_move(
            &mut self.inboxes,
            &mut self.run,
            Move { stamp, step },
            &mut self.out,
        );
    }
}

// A run with no moves yet, and room for as many moves and lines as the commands often come to.
fn first_run(alloc: Global, script: &Script) -> Result<Run, AllocError>
    ensures { IfOk result (λ run. run.entries ≡ []) }
{
    let commands = script.commands() as usize;
    Run::with_room(
        alloc,
        commands.saturating_mul(3),
        commands.saturating_mul(4),
    )
}

// All nodes of the script at its start.
fn nodes_of(alloc: Global, script: &Script) -> Result<Vec<Node>, AllocError>
    ensures count { IfOk result (λ nodes. length nodes.items ≡ script.now.nodes) }
    ensures each { IfOk result (λ nodes. (q : ℕ) → q < script.now.nodes → IsNodeOf script.now q ((start script.now).node q) (node_at nodes.items q)) }
    ensures script { IsScript script.now }
{
    let count = script.nodes();
    let mut commands = Commands::new(alloc, script)?;
    let mut nodes = Vec::with_capacity(alloc, usize::from(count))?;
    for node in 0..count {
        nodes.push(Node::with_commands(alloc, script, node, &mut commands)?)?;
    }
    Ok(nodes)
}

// This node makes the next command of the client.
fn act_at(nodes: &mut Vec<Node>, node: u8, client: u16, out: &mut Out) -> Stamp
    requires node { node < length nodes.old.items }
    requires acts { CanAct (node_at nodes.old.items node) client }
    requires room { RoomToAct client (node_at nodes.old.items node) out.old }
    ensures stamp { result ≡ act_stamp (node_at nodes.old.items node).me (state_of (node_at nodes.old.items node)) }
    ensures others { nodes.new.items ≡ slice_set nodes.old.items node (node_at nodes.new.items node) }
    ensures does { NodeDoes (node_act (node_at nodes.old.items node).script (node_at nodes.old.items node).me client (state_of (node_at nodes.old.items node))) (node_at nodes.old.items node) out.old (node_at nodes.new.items node) out.new }
{
    let mover = &mut nodes[usize::from(node)];
    let stamp = mover.stamp_of_act();
    mover.act(client, out);
    stamp
}

// This node takes the letter.
fn take_at(nodes: &mut Vec<Node>, node: u8, letter: Letter, out: &mut Out) -> Stamp
    requires node { node < length nodes.old.items }
    requires takes { CanTake (node_at nodes.old.items node) (letter_seen letter) }
    requires room { RoomToTake (node_at nodes.old.items node) letter out.old }
    ensures stamp { result ≡ take_stamp (node_at nodes.old.items node).me (state_of (node_at nodes.old.items node)) (letter_seen letter) }
    ensures others { nodes.new.items ≡ slice_set nodes.old.items node (node_at nodes.new.items node) }
    ensures does { NodeDoes (node_take (node_at nodes.old.items node).me (letter_seen letter) (state_of (node_at nodes.old.items node))) (node_at nodes.old.items node) out.old (node_at nodes.new.items node) out.new }
{
    let mover = &mut nodes[usize::from(node)];
    let stamp = mover.stamp_of_take(&letter);
    mover.take(letter, out);
    stamp
}

// Notes the move that its node made, and sends on what it sent out.
#[inline(always)]
fn record_move(inboxes: &mut Inboxes, run: &mut Run, made: Move, out: &mut Out)
    requires sender { made.stamp.node < inboxes.old.nodes }
    requires targets { All (λ (post : rules.Post). post.to < inboxes.old.nodes) out.old.posts }
    requires room { InboxRoom inboxes.old run.old out.old }
    ensures delivered { AreDelivered made.stamp.node out.old.posts inboxes.old inboxes.new }
    ensures entries { run.new.entries ≡ run.old.entries ++ record { made = made; events = out.old.events } ∷ [] }
    ensures out { (out.new.posts ≡ []) × (out.new.events ≡ []) }
{
    out.is_within();
    run.push(made);
    note_events(out, run);
    inboxes.deliver(made.stamp.node, out);
}
