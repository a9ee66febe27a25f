// The run of the stations, and how it ended.
ghost use Rattle.std.specs.Prelude.{◌≡◌, ◌≤◌, ◌<◌, length, map, IfOk};
ghost use Rattle.lt_modes.specs.Script.{ScriptData};
ghost use Rattle.lt_spec.specs.declared.limits.TheConstants.{MAX_COMMANDS};
ghost use Rattle.lt_threads.specs.Meeting.{ShareScript, AreTooMany, HaveAll, IsCrew, IsJoined, AreCrewLogs};
ghost use Rattle.lt_threads.specs.Pushes.{HasLimit};
ghost use Rattle.lt_threads.specs.declared.sharing.TheConstants.{MAX_WORKERS};
ghost use Rattle.lt_threads.specs.Threads.{StaysWithin, GoesFar};
ghost use Rattle.lt_live.specs.Live.{AreLive, LiveScript, IsServedRun};
ghost use Rattle.lt_live.specs.Stations.{runner_of, HaveEqualShares};
ghost use Rattle.lt_live_callers.specs.Served.{CallersEndSo, as_live, IsRunOfStations};
ghost use Rattle.lt_live_callers.specs.Taking.{HaveTakenAll, AreAllAppended};

use lt_law_merged::law_can_move;
use lt_live::{Session, Station, law_live_lasts, settle_all, take_runners};
use lt_merge::{Log, Run, merge};
use lt_runner::{Open, Runner};
use lt_script::Script;
use lt_spec::Ending;
use lt_threads::{JoinError, MAX_WORKERS, finish, join_scripts, run_crew};
use std::alloc::{AllocError, Global};
use std::thread::Threads;

// How often a worker looks in vain for a move before it ends.
const PATIENCE: u32 = 256;

/// How a run ended.
#[derive(Clone, Copy, Debug, PartialEq, Eq)]
pub enum LiveEnding {
    /// At rest, and no client waits.
    Done,
    /// At rest, and a client waits.
    Stuck,
    /// This node, the least such one, can make a further move; each node that can has made as many as it may.
    Unfinished { node: u8 },
}

fn live_ending(ending: Ending) -> LiveEnding
    ensures { result ≡ as_live ending }
{
    match ending {
        Ending::Done => LiveEnding::Done,
        Ending::Stuck => LiveEnding::Stuck,
        Ending::Cut { node } => LiveEnding::Unfinished { node },
    }
}

/// The script with the commands that the stations appended, the run of it that they made with all moves that were left,
/// and how it ended.
pub(crate) fn end_run<R: Threads + Sync>(
    rt: &R,
    alloc: Global,
    mut stations: Vec<Station>,
    mut sessions: Vec<Session>,
    _limit: u32,
    threads: usize,
) -> Result<(Script, Run, LiveEnding), AllocError>
    requires live { LiveScript stations.items sessions.items }
    requires limits { HasLimit _limit (map runner_of stations.items) }
    requires all { HaveAll (map runner_of stations.items) }
    requires shares { HaveEqualShares sessions.items }
    ensures served { IfOk result (λ made.
        (script : ScriptData) → AreLive script stations.items sessions.items → IsServedRun script sessions.items
        made.0 made.1.entries) }
    ensures few_commands { IfOk result (λ made. length made.0.commands ≤ MAX_COMMANDS) }
    ensures ends { IfOk result (λ made. CallersEndSo made.2 made.0 made.1.entries) }
    ensures within { IfOk result (λ made. StaysWithin _limit made.0 made.1.entries) }
    ensures far { IfOk result (λ made. GoesFar _limit made.0 made.1.entries) }
    ensures made { IfOk result (λ made. IsRunOfStations stations.items made.0 made.1.entries) }
    ensures all { IfOk result (λ made.
        (script : ScriptData) → AreLive script stations.items sessions.items
        → HaveTakenAll script stations.items sessions.items → AreAllAppended made.0 sessions.items) }
{
    law_can_move();
    law_live_lasts();
    let runners = Vec::with_capacity(alloc, stations.len())?;
    settle_all(&mut stations, &mut sessions);
    let runners = take_runners(stations, runners);
    let script = join(alloc, &runners)?;
    let workers = workers_for(threads);
    let (runners, ending) = run_crew(rt, alloc, &script, runners, workers, PATIENCE, &Open)?;
    let logs = gather_logs(alloc, &script, runners)?;
    let run = merge(alloc, logs)?;
    Ok((script, run, live_ending(ending)))
}

// As many workers as threads, as far as there may be so many.
fn workers_for(threads: usize) -> u8
    ensures { (0 < result) × (result ≤ MAX_WORKERS) }
{
    for workers in 1..MAX_WORKERS {
        if usize::from(workers) >= threads {
            return workers;
        }
    }
    MAX_WORKERS
}

// The one script of runners that don't have too many commands and have forgotten none.
fn join(alloc: Global, runners: &[Runner]) -> Result<Script, AllocError>
    requires shares { ShareScript runners.now }
    requires few { ¬ AreTooMany runners.now }
    requires all { HaveAll runners.now }
    ensures { IfOk result (IsJoined runners.now) }
{
    match join_scripts(alloc, runners) {
        Ok(script) => Ok(script),
        Err(JoinError::NoMemory) => Err(AllocError),
        Err(JoinError::Forgotten) => unreachable!(),
        Err(JoinError::TooMany) => unreachable!(),
    }
}

// The logs of runners that have forgotten nothing.
fn gather_logs(alloc: Global, script: &Script, runners: Vec<Runner>) -> Result<Vec<Log>, AllocError>
    requires crew { IsCrew script.now runners.items }
    requires all { HaveAll runners.items }
    ensures { IfOk result (λ logs. AreCrewLogs script.now runners.items logs.items) }
{
    match finish(alloc, script, runners) {
        Ok(logs) => Ok(logs),
        Err(JoinError::NoMemory) => Err(AllocError),
        Err(JoinError::Forgotten) => unreachable!(),
        Err(JoinError::TooMany) => unreachable!(),
    }
}
