// Lets the nodes make all moves that are left.
ghost use Rattle.std.specs.Prelude.{◌≡◌, ◌≤◌, [], length, map, vec_capacity, IfOk};
ghost use Rattle.lt_spec.specs.Script.{IsScript};
ghost use Rattle.lt_threads.specs.Pushes.{MovedOn};
ghost use Rattle.lt_live.specs.Stations.{runner_of};
ghost use Rattle.lt_live_serve.specs.Apart.{AreParts, GoTogether};
ghost use Rattle.lt_live_serve.specs.Completing.{AreServing, AreComplete};

use crate::benches::Bench;
use crate::callers::Caller;
use crate::completing::are_kept;
use crate::limits::{PATIENCE, WORKERS};
use lt_live::Station;
use lt_runner::{Gate, Runner};
use lt_script::Script;
use lt_spec::Ending;
use lt_threads::run_crew;
use std::alloc::{AllocError, Global};
use std::thread::Threads;

/// Makes all moves that are left, on threads, and tells how the run ended.
pub(crate) fn run_on<R: Threads + Sync, G: Gate>(
    rt: &R,
    alloc: Global,
    script: &Script,
    stations: Vec<Station>,
    _callers: &[Caller],
    gate: &G,
) -> Result<(Vec<Station>, Ending), AllocError>
    requires kept { IsScript script.now }
    requires serving { AreServing script.now stations.items _callers.now }
    requires complete { AreComplete script.now stations.items }
    ensures serving { IfOk result (λ made. AreServing script.now made.0.items _callers.now) }
    ensures moved { IfOk result (λ made. MovedOn script.now made.1 (map runner_of stations.items) (map runner_of made.0.items)) }
{
    let (runners, benches, room) = empty_lists(alloc, stations.len())?;
    are_kept(&stations);
    let (runners, benches) = take_apart(stations, runners, benches);
    let (runners, ending) = run_crew(rt, alloc, script, runners, WORKERS, PATIENCE, gate)?;
    Ok((put_together(runners, benches, room), ending))
}

// Lists of runners, benches and stations, empty, each with so many places.
fn empty_lists(
    alloc: Global,
    count: usize,
) -> Result<(Vec<Runner>, Vec<Bench>, Vec<Station>), AllocError>
    ensures runners { IfOk result (λ lists. (lists.0.items ≡ []) × (count ≤ vec_capacity lists.0)) }
    ensures benches { IfOk result (λ lists. (lists.1.items ≡ []) × (count ≤ vec_capacity lists.1)) }
    ensures stations { IfOk result (λ lists. (lists.2.items ≡ []) × (count ≤ vec_capacity lists.2)) }
{
    let runners = Vec::with_capacity(alloc, count)?;
    let benches = Vec::with_capacity(alloc, count)?;
    let stations = Vec::with_capacity(alloc, count)?;
    Ok((runners, benches, stations))
}

fn take_apart(
    mut stations: Vec<Station>,
    mut runners: Vec<Runner>,
    mut benches: Vec<Bench>,
) -> (Vec<Runner>, Vec<Bench>)
    requires empty { (runners.items ≡ []) × (benches.items ≡ []) }
    requires room { (length stations.items ≤ vec_capacity runners) × (length stations.items ≤ vec_capacity benches) }
    ensures { AreParts stations.items result.0.items result.1.items }
{
    while !stations.is_empty() {
        let (runner, seats) = stations.remove(0).into_parts();
        runners.push_reserved(runner);
        benches.push_reserved(Bench { seats });
    }
    (runners, benches)
}

fn put_together(
    mut runners: Vec<Runner>,
    mut benches: Vec<Bench>,
    mut stations: Vec<Station>,
) -> Vec<Station>
    requires together { GoTogether runners.items benches.items }
    requires empty { stations.items ≡ [] }
    requires room { length runners.items ≤ vec_capacity stations }
    ensures { AreParts result.items runners.items benches.items }
{
    while !runners.is_empty() {
        let runner = runners.remove(0);
        let bench = benches.remove(0);
        stations.push_reserved(Station::from_parts(runner, bench.seats));
    }
    stations
}
