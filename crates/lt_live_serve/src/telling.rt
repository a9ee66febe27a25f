// Brings all replies to their callers.
ghost use Rattle.std.specs.Prelude.{◌≡◌, ◌≤◌, ◌<◌, ◌++◌, true, false, length, map, IfOk, OnOk};
ghost use Rattle.lt_lists.specs.Below.{gather_below};
ghost use Rattle.lt_spec.specs.Holdings.{lines_of};
ghost use Rattle.lt_live.specs.Stations.{runner_of, IsSeated, StaySeated};
ghost use Rattle.lt_live.specs.Seats.{replies_in};
ghost use Rattle.lt_live_serve.specs.Completing.{Calls, AreServing, HaveHeard, Hears, TellsAt, marked, heard_at};

use crate::callers::Caller;
use lt_live::{Reply, Station};
use lt_script::Script;
use std::alloc::{AllocError, Global};

/// Lets the callers poll all replies.
pub(crate) fn tell_all(
    _script: &Script,
    stations: &mut Vec<Station>,
    callers: &mut Vec<Caller>,
) -> Result<(), AllocError>
    requires { AreServing _script.now stations.old.items callers.old.items }
    ensures serving { OnOk result (AreServing _script.now stations.new.items callers.new.items) }
    ensures runners { OnOk result (map runner_of stations.new.items ≡ map runner_of stations.old.items) }
    ensures heard { OnOk result (HaveHeard _script.now (length callers.new.items) (map runner_of stations.new.items) callers.new.items) }
{
    for client in 0..callers.len() {
        tell_at(_script, stations, callers, client)?;
    }
    Ok(())
}

fn tell_at(
    _script: &Script,
    stations: &mut Vec<Station>,
    callers: &mut Vec<Caller>,
    client: usize,
) -> Result<(), AllocError>
    requires inside { client < length callers.old.items }
    requires serving { AreServing _script.now stations.old.items callers.old.items }
    ensures { OnOk result (TellsAt _script.now client stations.old.items callers.old.items stations.new.items callers.new.items) }
{
    let home = usize::from(callers[client].home());
    tell(&mut stations[home], &mut callers[client])?;
    Ok(())
}

// Lets the caller poll all its replies.
#[tactic(auto, using(crate::proofs::Told::hears_itself, crate::proofs::Told::hears_join))]
fn tell(station: &mut Station, caller: &mut Caller) -> Result<(), AllocError>
    requires { IsSeated caller.old.session station.old.seats }
    ensures hears { Hears station.old caller.old station.new caller.new }
    ensures all { OnOk result (caller.new.heard.items ≡ replies_in caller.old.session.client (lines_of station.old.runner.log.entries)) }
{
    loop {
        if !tell_one(station, caller)? {
            return Ok(());
        }
    }
}

// Lets the caller poll its next reply; false where it has polled all.
fn tell_one(station: &mut Station, caller: &mut Caller) -> Result<bool, AllocError>
    requires { IsSeated caller.old.session station.old.seats }
    ensures hears { Hears station.old caller.old station.new caller.new }
    ensures more { IfOk result (λ more. more ≡ true → length caller.old.heard.items < length caller.new.heard.items) }
    ensures few { length caller.new.heard.items ≤ length (replies_in caller.old.session.client (lines_of station.old.runner.log.entries)) }
    ensures all { IfOk result (λ more. more ≡ false → caller.new.heard.items ≡ replies_in caller.old.session.client (lines_of station.old.runner.log.entries)) }
{
    station.kept();
    station.beside(&mut caller.session);
    let more = caller.hear();
    station.beside(&mut caller.session);
    more
}

/// What the callers polled, each reply with its client.
pub(crate) fn gather(alloc: Global, callers: &[Caller]) -> Result<Vec<(u16, Reply)>, AllocError>
    ensures { IfOk result (λ polled. polled.items ≡ gather_below (length callers.now) (heard_at callers.now)) }
{
    let mut polled = Vec::new(alloc);
    for place in 0..callers.len() {
        add_heard(&mut polled, &callers[place])?;
    }
    Ok(polled)
}

// Adds what the caller polled.
fn add_heard(polled: &mut Vec<(u16, Reply)>, caller: &Caller) -> Result<(), AllocError>
    ensures { OnOk result (polled.new.items ≡ polled.old.items ++ marked caller.now) }
{
    let client = caller.session.client();
    for place in 0..caller.heard.len() {
        polled.push((client, caller.heard[place]))?;
    }
    Ok(())
}
