// Rounds, in which stations and callers are at work beside each other.
ghost use Rattle.std.specs.Prelude.{◌≡◌, ◌≤◌, ◌<◌, true, false};
ghost use Rattle.lt_live.specs.Live.{EachStation};
ghost use Rattle.lt_live_serve.specs.Completing.{Calls, EachCaller, AllSubmitted, ServesOn, all_left};

use crate::callers::Caller;
use crate::limits::{TRIES, WORKERS};
use lt_live::Station;
use lt_runner::Gate;
use std::thread::{Threads, for_each_mut, join_mut};

/// Lets stations and callers work beside each other, in rounds, until all commands are submitted. Before the first round,
/// and after each one, the caller of this submits a command itself.
pub(crate) fn rounds<R: Threads + Sync, G: Gate>(
    rt: &R,
    stations: &mut Vec<Station>,
    callers: &mut Vec<Caller>,
    gate: &G,
)
    ensures stations { EachStation ServesOn stations.old.items stations.new.items }
    ensures callers { EachCaller Calls callers.old.items callers.new.items }
    ensures submitted { AllSubmitted callers.new.items }
{
    rounds_of(rt, stations, callers, gate);
}

fn rounds_of<R: Threads + Sync, G: Gate>(
    rt: &R,
    stations: &mut [Station],
    callers: &mut [Caller],
    gate: &G,
)
    ensures stations { EachStation ServesOn stations.old stations.new }
    ensures callers { EachCaller Calls callers.old callers.new }
    ensures submitted { AllSubmitted callers.new }
{
    while submit_one(callers) {
        round(rt, stations, callers, gate);
    }
}

// Submits a command of the first caller that has one.
fn submit_one(callers: &mut [Caller]) -> bool
    ensures callers { EachCaller Calls callers.old callers.new }
    ensures one { result ≡ true → all_left callers.new < all_left callers.old }
    ensures none { result ≡ false → AllSubmitted callers.new }
{
    for place in 0..callers.len() {
        if callers[place].submit_next() {
            return true;
        }
    }
    false
}

pub(crate) fn round<R: Threads + Sync, G: Gate>(
    rt: &R,
    stations: &mut [Station],
    callers: &mut [Caller],
    gate: &G,
)
    ensures stations { EachStation ServesOn stations.old stations.new }
    ensures callers { EachCaller Calls callers.old callers.new }
{
    join_mut(
        rt,
        &mut ||
            ensures { EachStation ServesOn stations.entry.now stations.exit.now }
        { turn_all(rt, stations, gate) },
        &mut ||
            ensures { EachCaller Calls callers.entry.now callers.exit.now }
        { call_all(rt, callers) },
    );
}

fn call_all<R: Threads + Sync>(rt: &R, callers: &mut [Caller])
    ensures { EachCaller Calls callers.old callers.new }
{
    for_each_mut(
        rt,
        callers,
        usize::from(WORKERS),
        &|_, caller: &mut Caller|
            ensures { Calls caller.old caller.new }
        { caller.call() },
    );
}

fn turn_all<R: Threads + Sync, G: Gate>(rt: &R, stations: &mut [Station], gate: &G)
    ensures { EachStation ServesOn stations.old stations.new }
{
    for_each_mut(
        rt,
        stations,
        usize::from(WORKERS),
        &|_, station: &mut Station|
            ensures { ServesOn station.old station.new }
        { turn_often(station, gate) },
    );
}

// Makes turns, for a while.
#[tactic(auto, using(crate::proofs::Lasting::serves_itself, crate::proofs::Lasting::station_turned))]
fn turn_often<G: Gate>(station: &mut Station, gate: &G)
    ensures { ServesOn station.old station.new }
{
    for _ in 0..TRIES {
        station.turn(gate);
    }
}
