ghost use Rattle.std.specs.Prelude.{◌<◌, ◌≤◌, IfOk, IfErr};
ghost use Rattle.lt_spec.specs.declared.moves.TheConstants.{MAX_MOVES};
ghost use Rattle.lt_threads.specs.Meeting.{IsCrew, EachIs, SomeCouldMove, RoundsEnd};
ghost use Rattle.lt_runner.specs.Kept.{AsSeen};
ghost use Rattle.lt_threads.specs.Threads.{IsThreadRun};
ghost use Rattle.lt_threads.specs.Pushes.{CrewEnds, MovedOn};
ghost use Rattle.lt_threads.specs.declared.sharing.TheConstants.{MAX_WORKERS};

use crate::finishing::all_logs;
use crate::rounds::{Ended, run_rounds};
use crate::starting::start_crew;
use crate::waiting::anyone_waits;
use lt_law_merged::law_can_move;
use lt_mail::MAX_CAPACITY;
use lt_merge::{Run, merge};
use lt_runner::{Gate, Runner};
use lt_script::Script;
use lt_spec::Ending;
use std::alloc::{AllocError, Global};
use std::thread::Threads;

/// Runs a script, each node by a runner that makes up to `limit` moves, with rings of so many places between them, and
/// so many workers that share them.
pub fn run_on_threads<R: Threads + Sync, G: Gate>(
    rt: &R,
    alloc: Global,
    script: &Script,
    capacity: u32,
    limit: u32,
    workers: u8,
    patience: u32,
    gate: &G,
) -> Result<(Ending, Run), AllocError>
    requires capacity { (0 < capacity) × (capacity ≤ MAX_CAPACITY) }
    requires limit { (0 < limit) × (limit ≤ MAX_MOVES) }
    requires workers { (0 < workers) × (workers ≤ MAX_WORKERS) }
    ensures { IfOk result (λ made. IsThreadRun limit made.0 script.now made.1.entries) }
{
    law_can_move();
    let runners = start_crew(alloc, script, capacity, u64::from(limit))?;
    let (runners, ending) = run_crew(rt, alloc, script, runners, workers, patience, gate)?;
    let logs = all_logs(alloc, script, runners)?;
    let run = merge(alloc, logs)?;
    Ok((ending, run))
}

/// Lets the runners make all moves that there are, in rounds, and tells how the run ended.
pub fn run_crew<R: Threads + Sync, G: Gate>(
    rt: &R,
    alloc: Global,
    script: &Script,
    runners: Vec<Runner>,
    workers: u8,
    patience: u32,
    gate: &G,
) -> Result<(Vec<Runner>, Ending), AllocError>
    requires crew { IsCrew script.now runners.items }
    requires workers { (0 < workers) × (workers ≤ MAX_WORKERS) }
    ensures { IfOk result (λ made. MovedOn script.now made.1 runners.items made.0.items) }
{
    let (mut runners, ended) = run_rounds(rt, alloc, script, runners, workers, patience, gate)?;
    let ending = end_of(script, &mut runners, ended)?;
    Ok((runners, ending))
}

// How rounds that ended so end the run.
fn end_of(script: &Script, runners: &mut Vec<Runner>, ended: Ended) -> Result<Ending, AllocError>
    requires crew { IsCrew script.now runners.old.items }
    requires ended { RoundsEnd ended script.now runners.old.items }
    ensures crew { IsCrew script.now runners.new.items }
    ensures seen { EachIs AsSeen runners.old.items runners.new.items }
    ensures ends { IfOk result (λ over. CrewEnds over script.now runners.new.items) }
    ensures memory { IfErr result (λ error. SomeCouldMove runners.old.items) }
{
    match ended {
        Ended::NoMemory => Err(AllocError),
        Ended::Cut(node) => Ok(Ending::Cut { node }),
        Ended::Rest if anyone_waits(script, runners) => Ok(Ending::Stuck),
        Ended::Rest => Ok(Ending::Done),
    }
}
