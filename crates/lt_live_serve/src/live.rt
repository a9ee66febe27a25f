// The run of a script whose commands are submitted by callers.
ghost use Rattle.std.specs.Prelude.{◌≡◌, ◌≢◌, ℕ, None, map, IfOk};
ghost use Rattle.lt_spec.specs.Script.{IsScript, IsShort};
ghost use Rattle.lt_live.specs.Stations.{runner_of};
ghost use Rattle.lt_threads.specs.Meeting.{IsCrew, AreCrewLogs, HaveAll};
ghost use Rattle.lt_live_serve.specs.Apart.{IsRunOf};
ghost use Rattle.lt_live_serve.specs.Completing.{AreServing, AreComplete};
ghost use Rattle.lt_live_serve.specs.Serves.{IsFirstOver, LiveRun, all_replies};

use crate::callers::Caller;
use crate::completing::complete_all;
use crate::first::first_round;
use crate::opening::begin;
use crate::rounds::rounds;
use crate::running::run_on;
use crate::telling::{gather, tell_all};
use lt_law_ends::law_never_cut;
use lt_law_merged::law_can_move;
use lt_law_ordered::law_ordered;
use lt_law_promises::law_promised;
use lt_live::{Reply, Station, take_runners};
use lt_merge::{Log, Run, merge};
use lt_runner::{Gate, Runner};
use lt_script::Script;
use lt_spec::Ending;
use lt_threads::{JoinError, finish};
use std::alloc::{AllocError, Global};
use std::thread::Threads;

/// What a live run came to: how it ended, its moves, and what was polled.
#[derive(Drop)]
pub(crate) struct Live {
    pub(crate) ending: Ending,
    pub(crate) run: Run,
    pub(crate) polled: Vec<(u16, Reply)>,
}

/// The run of the script, whose commands callers submit and whose replies they poll.
#[tactic(auto, using(crate::proofs::Heard::not_cut, crate::proofs::Heard::moves_are_many))]
pub(crate) fn live_run<R: Threads + Sync, G: Gate>(
    rt: &R,
    alloc: Global,
    script: &Script,
    gate: &G,
) -> Result<Live, AllocError>
    requires kept { IsScript script.now }
    requires short { IsShort script.now }
    requires shared { IsFirstOver script.now None }
    ensures never_cut { IfOk result (λ live. (node : ℕ) → live.ending ≢ Ending.Cut node) }
    ensures live { IfOk result (λ live. LiveRun live.ending script.now live.run.entries live.polled.items) }
{
    law_never_cut();
    let live = ended_run(rt, alloc, script, gate)?;
    Ok(live)
}

// The run up to its end, which may be a cut.
fn ended_run<R: Threads + Sync, G: Gate>(
    rt: &R,
    alloc: Global,
    script: &Script,
    gate: &G,
) -> Result<Live, AllocError>
    requires kept { IsScript script.now }
    requires short { IsShort script.now }
    requires shared { IsFirstOver script.now None }
    ensures { IfOk result (λ live. LiveRun live.ending script.now live.run.entries live.polled.items) }
{
    law_can_move();
    law_promised();
    law_ordered();
    let (stations, callers) = submit_all(rt, alloc, script, gate)?;
    let (stations, ending) = run_on(rt, alloc, script, stations, &callers, gate)?;
    let (run, polled) = told_run(alloc, script, stations, callers)?;
    Ok(Live {
        ending,
        run,
        polled,
    })
}

// The stations, once they have taken in all commands, and the callers, which submitted them.
fn submit_all<R: Threads + Sync, G: Gate>(
    rt: &R,
    alloc: Global,
    script: &Script,
    gate: &G,
) -> Result<(Vec<Station>, Vec<Caller>), AllocError>
    requires kept { IsScript script.now }
    requires shared { IsFirstOver script.now None }
    ensures serving { IfOk result (λ made. AreServing script.now made.0.items made.1.items) }
    ensures complete { IfOk result (λ made. AreComplete script.now made.0.items) }
{
    let (mut stations, mut callers) = begin(alloc, script)?;
    first_round(rt, &mut stations, &mut callers, gate);
    rounds(rt, &mut stations, &mut callers, gate);
    complete_all(script, &mut stations, &mut callers, gate)?;
    Ok((stations, callers))
}

// The moves of all nodes, and all replies, which the callers poll now.
fn told_run(
    alloc: Global,
    script: &Script,
    mut stations: Vec<Station>,
    mut callers: Vec<Caller>,
) -> Result<(Run, Vec<(u16, Reply)>), AllocError>
    requires kept { IsScript script.now }
    requires serving { AreServing script.now stations.items callers.items }
    requires crew { IsCrew script.now (map runner_of stations.items) }
    ensures run { IfOk result (λ made. IsRunOf script.now (map runner_of stations.items) made.0.entries) }
    ensures polled { IfOk result (λ made. made.1.items ≡ all_replies script.now made.0.entries) }
{
    tell_all(script, &mut stations, &mut callers)?;
    let polled = gather(alloc, &callers)?;
    let run = run_of(alloc, script, stations)?;
    Ok((run, polled))
}

// The moves of all nodes.
fn run_of(alloc: Global, script: &Script, stations: Vec<Station>) -> Result<Run, AllocError>
    requires crew { IsCrew script.now (map runner_of stations.items) }
    requires all { HaveAll (map runner_of stations.items) }
    ensures { IfOk result (λ run. IsRunOf script.now (map runner_of stations.items) run.entries) }
{
    let runners = Vec::with_capacity(alloc, stations.len())?;
    let logs = logs_of(alloc, script, take_runners(stations, runners))?;
    merge(alloc, logs)
}

// The logs of runners that have forgotten nothing.
fn logs_of(alloc: Global, script: &Script, runners: Vec<Runner>) -> Result<Vec<Log>, AllocError>
    requires crew { IsCrew script.now runners.items }
    requires all { HaveAll runners.items }
    ensures { IfOk result (λ logs. AreCrewLogs script.now runners.items logs.items) }
{
    match finish(alloc, script, runners) {
        Ok(logs) => Ok(logs),
        Err(JoinError::NoMemory) => Err(AllocError),
        Err(JoinError::Forgotten) => unreachable!(),
        Err(JoinError::TooMany) => unreachable!(),
    }
}
