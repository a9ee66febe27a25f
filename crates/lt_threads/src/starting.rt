ghost use Rattle.std.specs.Prelude.{◌<◌, ◌≤◌, ◌+◌, IfOk, OnOk};
ghost use Rattle.lt_spec.specs.declared.moves.TheConstants.{MAX_MOVES_OF_SERVICE};
ghost use Rattle.lt_mail.specs.Opening.{IsFresh};
ghost use Rattle.lt_node.specs.Clients.{HaveFrom};
ghost use Rattle.lt_runner.specs.Kept.{HasAll};
ghost use Rattle.lt_runner.specs.Ready.{StartsWith};
ghost use Rattle.lt_threads.specs.Pushes.{Starting, IsFirstCrew};

use lt_mail::{MAX_CAPACITY, Mail, open};
use lt_node::{Commands, Node};
use lt_runner::Runner;
use lt_script::Script;
use std::alloc::{AllocError, Global};

/// A runner for each node of the script, in order, with rings of so many places; each makes up to `limit` moves.
#[tactic(auto, using(crate::proofs::Starts::starting))]
pub fn start_crew(
    alloc: Global,
    script: &Script,
    capacity: u32,
    limit: u64,
) -> Result<Vec<Runner>, AllocError>
    requires capacity { (0 < capacity) × (capacity ≤ MAX_CAPACITY) }
    requires limit { (0 < limit) × (limit ≤ MAX_MOVES_OF_SERVICE) }
    ensures { IfOk result (λ runners. IsFirstCrew script.now capacity limit runners.items) }
{
    let nodes = script.nodes();
    let mut commands = Commands::new(alloc, script)?;
    let mut mails = open(alloc, nodes, capacity)?;
    let mut runners = Vec::new(alloc);
    for node in 0..nodes {
        add_runner(
            alloc,
            script,
            node,
            capacity,
            limit,
            &mut commands,
            &mut mails,
            &mut runners,
        )?;
    }
    Ok(runners)
}

// The runner of the next node, with the first mail that is left.
#[tactic(auto, using(crate::proofs::Starts::has_mail))]
fn add_runner(
    alloc: Global,
    script: &Script,
    node: u8,
    _capacity: u32,
    limit: u64,
    commands: &mut Commands,
    mails: &mut Vec<Mail>,
    runners: &mut Vec<Runner>,
) -> Result<(), AllocError>
    requires node { node < script.now.nodes }
    requires limit { (0 < limit) × (limit ≤ MAX_MOVES_OF_SERVICE) }
    requires commands { HaveFrom script.now node commands.old }
    requires starting { Starting script.now _capacity limit node mails.old.items runners.old.items }
    ensures starting { OnOk result (Starting script.now _capacity limit (node + 1) mails.new.items runners.new.items) }
    ensures left { OnOk result (HaveFrom script.now (node + 1) commands.new) }
{
    let mail = mails.remove(0);
    let runner = first_runner(alloc, script, node, mail, limit, commands)?;
    runners.push(runner)?;
    Ok(())
}

// The runner of a node with this mail, which takes the commands of its clients.
fn first_runner(
    alloc: Global,
    script: &Script,
    node: u8,
    mail: Mail,
    limit: u64,
    commands: &mut Commands,
) -> Result<Runner, AllocError>
    requires node { node < script.now.nodes }
    requires mail { IsFresh script.now.nodes node mail }
    requires limit { (0 < limit) × (limit ≤ MAX_MOVES_OF_SERVICE) }
    requires commands { HaveFrom script.now node commands.old }
    ensures starts { IfOk result (StartsWith script.now node mail limit) }
    ensures all { IfOk result HasAll }
    ensures left { OnOk result (HaveFrom script.now (node + 1) commands.new) }
{
    let state = Node::with_commands(alloc, script, node, commands)?;
    Runner::of_node(alloc, script, state, mail, limit)
}
