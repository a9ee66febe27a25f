ghost use Rattle.std.specs.Prelude.{◌<◌, ◌≤◌, length, IfOk};
ghost use Rattle.lt_runner.specs.Kept.{Grew};
ghost use Rattle.lt_threads.specs.Meeting.{EachIs, IsCrew, RoundsEnd};
ghost use Rattle.lt_threads.specs.declared.sharing.TheConstants.{MAX_WORKERS};
ghost use Rattle.lt_threads.specs.Pushes.{OnePushed, PushedAt, CanPush, PushEnds};

use crate::enabled::any_enabled;
use crate::sharing::{MAX_WORKERS, crew};
use lt_runner::{Gate, Runner, Turned, Worked};
use lt_script::Script;
use std::alloc::{AllocError, Global};
use std::thread::Threads;

/// How the rounds of runners ended.
#[derive(Clone, Copy, Debug, PartialEq, Eq)]
pub enum Ended {
    /// No move is enabled.
    Rest,
    /// Each node that could make a move has made as many as it may, and this is the least of them.
    Cut(u8),
    /// A node could make a move and may, and there was no memory for it.
    NoMemory,
}

/// Runs the nodes of a script until no move is enabled, or none that a node may make: again and again so many workers
/// share the nodes, on threads, and then, where a move is enabled, the caller makes one itself.
///
/// Where a crew finds no memory for itself, the runners are dropped.
pub fn run_rounds<R: Threads + Sync, G: Gate>(
    rt: &R,
    alloc: Global,
    script: &Script,
    mut runners: Vec<Runner>,
    workers: u8,
    patience: u32,
    gate: &G,
) -> Result<(Vec<Runner>, Ended), AllocError>
    requires crew { IsCrew script.now runners.items }
    requires workers { (0 < workers) × (workers ≤ MAX_WORKERS) }
    ensures crew { IfOk result (λ made. IsCrew script.now made.0.items) }
    ensures grew { IfOk result (λ made. EachIs Grew runners.items made.0.items) }
    ensures ends { IfOk result (λ made. RoundsEnd made.1 script.now made.0.items) }
{
    loop {
        let (back, ended) = round(rt, alloc, script, runners, workers, patience, gate)?;
        if let Some(ended) = ended {
            return Ok((back, ended));
        }
        runners = back;
    }
}

// Workers share the nodes, and then a move is made where one is enabled.
fn round<R: Threads + Sync, G: Gate>(
    rt: &R,
    alloc: Global,
    script: &Script,
    runners: Vec<Runner>,
    workers: u8,
    patience: u32,
    gate: &G,
) -> Result<(Vec<Runner>, Option<Ended>), AllocError>
    requires crew { IsCrew script.now runners.items }
    requires workers { (0 < workers) × (workers ≤ MAX_WORKERS) }
    ensures { IfOk result (λ made. PushEnds made.1 script.now runners.items made.0.items) }
{
    let (mut runners, worked) = crew(rt, alloc, runners, workers, patience, gate)?;
    if let Worked::NoMemory = worked {
        return Ok((runners, Some(Ended::NoMemory)));
    }
    let ended = push_on(script, &mut runners, gate);
    Ok((runners, ended))
}

// Makes a move where one is enabled that a node may make; else tells how the rounds end.
fn push_on<G: Gate>(script: &Script, runners: &mut Vec<Runner>, gate: &G) -> Option<Ended>
    requires crew { IsCrew script.now runners.old.items }
    ensures { PushEnds result script.now runners.old.items runners.new.items }
{
    match any_enabled(script, runners) {
        Some(node) => push_from(script, runners, node, gate),
        None => Some(Ended::Rest),
    }
}

// Lets the least node that can make a move, and then those after it, make a turn, until one makes a move. Where none of
// them may, the run is cut at that node.
fn push_from<G: Gate>(
    _script: &Script,
    runners: &mut Vec<Runner>,
    node: u8,
    gate: &G,
) -> Option<Ended>
    requires crew { IsCrew _script.now runners.old.items }
    requires enabled { CanPush _script.now node runners.old.items }
    ensures { PushEnds result _script.now runners.old.items runners.new.items }
{
    for place in usize::from(node)..runners.len() {
        match push_at(runners, place, gate) {
            Turned::Moved => return None,
            Turned::NoMemory => return Some(Ended::NoMemory),
            Turned::Quiet | Turned::Full => {}
        }
    }
    Some(Ended::Cut(node))
}

fn push_at<G: Gate>(runners: &mut Vec<Runner>, place: usize, gate: &G) -> Turned
    requires { place < length runners.old.items }
    ensures { PushedAt result place runners.old.items runners.new.items }
{
    push(&mut runners[place], gate)
}

// Lets the runner make a turn.
#[tactic(auto, using(crate::proofs::Pushing::one_pushed))]
fn push<G: Gate>(runner: &mut Runner, gate: &G) -> Turned
    ensures { OnePushed result runner.old runner.new }
{
    let turned = runner.turn(gate);
    runner.kept();
    turned
}
