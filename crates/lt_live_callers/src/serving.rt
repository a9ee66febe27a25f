// Callers serve a script.
ghost use Rattle.std.specs.Prelude.{◌≡◌, ◌≢◌, ◌↔◌, ◌≤◌, ◌<◌, ◌*◌, [], length, map, Err, IfOk};
ghost use Rattle.lt_spec.specs.declared.moves.TheConstants.{MAX_MOVES};
ghost use Rattle.lt_threads.specs.Meeting.{HaveAll};
ghost use Rattle.lt_threads.specs.Pushes.{HasLimit};
ghost use Rattle.lt_threads.specs.Threads.{StaysWithin, GoesFar};
ghost use Rattle.lt_live.specs.Stations.{runner_of};
ghost use Rattle.lt_live_callers.specs.declared.error.CallersError.TheVariants as errors;
ghost use Rattle.lt_live_callers.specs.declared.turning.TheConstants.{TIMES_A_ROUND};
ghost use Rattle.lt_live_callers.specs.Desks.{called_of, session_of};
ghost use Rattle.lt_live_callers.specs.Over.{AreOver, HaveSaid};
ghost use Rattle.lt_live_callers.specs.Taking.{AreAsking};
ghost use Rattle.lt_live_callers.specs.Served.{IsServedIn, AreEnded, CallersAreServed, ComesOfTurns, IsNoLimit};

use crate::caller::Caller;
use crate::desk::Desk;
use crate::ending::end_run;
use crate::error::CallersError;
use crate::opening::{begin, may_begin};
use crate::served::{Called, Served};
use crate::taking::take_all_in;
use crate::turning::work;
use lt_live::{Session, Station, law_live_lasts};
use lt_script::Script;
use std::alloc::{AllocError, Global};
use std::thread::Threads;

/// The callers call, each for the client at its place, on so many threads, while the nodes of the script are at work
/// beside them on as many more. A node makes up to `limit` moves.
///
/// They work in rounds, until each caller is done or has a command that it might not submit, or the rounds are over.
/// Then the nodes take in the commands that are left, and make the moves that there are, on so many threads too. The
/// script's own commands are left out. Where there isn't a caller for each client, that is the answer, whatever the
/// limit, and nothing is begun.
pub fn serve_callers<R: Threads + Sync, C: Caller + Send + Drop>(
    rt: &R,
    alloc: Global,
    script: &Script,
    callers: Vec<C>,
    limit: u32,
    threads: usize,
    rounds: u32,
) -> Result<Served<C>, CallersError>
    ensures served { IfOk result (λ served.
        IsServedIn C.goes (served.rounds * TIMES_A_ROUND) (record script.now { commands = [] }) callers.items served) }
    ensures said { IfOk result (λ served. HaveSaid C.says served.callers.items) }
    ensures rounds { IfOk result (λ served.
        (served.rounds ≤ rounds) × (served.rounds < rounds → AreOver served.callers.items)) }
    ensures turned { IfOk result (λ served.
        ComesOfTurns (record script.now { commands = [] }) limit (served.rounds * TIMES_A_ROUND) served.script
        served.run.entries) }
    ensures within { IfOk result (λ served. StaysWithin limit served.script served.run.entries) }
    ensures far { IfOk result (λ served. GoesFar limit served.script served.run.entries) }
    ensures count { (result ≡ Err errors.Count) ↔ (length callers.items ≢ length script.now.clients) }
    ensures limit { (result ≡ Err errors.Limit)
        ↔ ((length callers.items ≡ length script.now.clients) × IsNoLimit limit) }
{
    may_begin(script, callers.len(), limit)?;
    let served = serve(rt, alloc, script, callers, limit, threads, rounds)?;
    Ok(served)
}

// A caller for each client, on threads.
fn serve<R: Threads + Sync, C: Caller + Send + Drop>(
    rt: &R,
    alloc: Global,
    script: &Script,
    callers: Vec<C>,
    limit: u32,
    threads: usize,
    rounds: u32,
) -> Result<Served<C>, AllocError>
    requires count { length callers.items ≡ length script.now.clients }
    requires limit { (0 < limit) × (limit ≤ MAX_MOVES) }
    ensures { IfOk result (λ served.
        CallersAreServed C.goes C.says rounds (served.rounds * TIMES_A_ROUND) limit
        (record script.now { commands = [] }) callers.items served) }
{
    law_live_lasts();
    let bare = script.without_commands(alloc)?;
    let (mut stations, mut desks) = begin(alloc, &bare, callers, limit)?;
    let made = work(rt, &mut stations, &mut desks, threads, rounds);
    let served = end(rt, alloc, &bare, stations, desks, limit, threads, made)?;
    Ok(served)
}

// The run of the stations, once they have taken in all commands, and the callers at its end.
fn end<R: Threads + Sync, C: Drop>(
    rt: &R,
    alloc: Global,
    bare: &Script,
    mut stations: Vec<Station>,
    desks: Vec<Desk<C>>,
    limit: u32,
    threads: usize,
    rounds: u32,
) -> Result<Served<C>, AllocError>
    requires asking { AreAsking bare.now stations.items (map session_of desks.items) }
    requires limits { HasLimit limit (map runner_of stations.items) }
    requires all { HaveAll (map runner_of stations.items) }
    ensures ended { IfOk result (λ served. AreEnded bare.now limit stations.items desks.items served) }
    ensures rounds { IfOk result (λ served. served.rounds ≡ rounds) }
{
    let (callers, mut sessions) = part(alloc, desks)?;
    take_all_in(bare, &mut stations, &mut sessions)?;
    let (script, run, ending) = end_run(rt, alloc, stations, sessions, limit, threads)?;
    Ok(Served {
        script,
        run,
        ending,
        rounds,
        callers,
    })
}

// The callers and their sessions.
fn part<C: Drop>(
    alloc: Global,
    desks: Vec<Desk<C>>,
) -> Result<(Vec<Called<C>>, Vec<Session>), AllocError>
    ensures callers { IfOk result (λ parts. parts.0.items ≡ map called_of desks.items) }
    ensures sessions { IfOk result (λ parts. parts.1.items ≡ map session_of desks.items) }
{
    let mut callers = Vec::new(alloc);
    let mut sessions = Vec::new(alloc);
    for desk in desks {
        sessions.push(desk.session)?;
        callers.push(Called {
            caller: desk.caller,
            done: desk.done,
            refused: desk.refused,
        })?;
    }
    Ok((callers, sessions))
}
