// The first round, in which each client has a command for its station.
ghost use Rattle.lt_live.specs.Live.{EachStation};
ghost use Rattle.lt_live_serve.specs.Completing.{Calls, EachCaller, ServesOn};

use crate::callers::Caller;
use crate::rounds::round;
use lt_live::Station;
use lt_runner::Gate;
use std::thread::Threads;

/// Submits the first command of each client, and lets stations and callers work beside each other for a round.
#[tactic(auto, using(crate::proofs::Lasting::callers_join))]
pub(crate) fn first_round<R: Threads + Sync, G: Gate>(
    rt: &R,
    stations: &mut Vec<Station>,
    callers: &mut Vec<Caller>,
    gate: &G,
)
    ensures stations { EachStation ServesOn stations.old.items stations.new.items }
    ensures callers { EachCaller Calls callers.old.items callers.new.items }
{
    submit_first(callers);
    round(rt, stations, callers, gate);
}

fn submit_first(callers: &mut [Caller])
    ensures { EachCaller Calls callers.old callers.new }
{
    for place in 0..callers.len() {
        callers[place].submit_next();
    }
}
