// Brings all commands to their stations.
ghost use Rattle.std.specs.Prelude.{◌≡◌, ◌<◌, true, false, nat_lt, length, IfOk, OnOk};
ghost use Rattle.lt_spec.specs.Script.{IsScript};
ghost use Rattle.lt_live.specs.Stations.{IsSeated, StaySeated, SeatLooks};
ghost use Rattle.lt_live_serve.specs.Completing.{Calls, AllSubmitted, CallersLook, CallerLooks, IsKept, AreStationsKept, Turns, TurnsAt, AllTurn, all_lack, AreServing, AreComplete};

use crate::callers::Caller;
use lt_live::Station;
use lt_runner::{Gate, Turned};
use lt_script::Script;
use std::alloc::AllocError;

/// Lets the stations take all commands in that the callers submitted.
pub(crate) fn complete_all<G: Gate>(
    script: &Script,
    stations: &mut Vec<Station>,
    callers: &mut Vec<Caller>,
    gate: &G,
) -> Result<(), AllocError>
    requires kept { IsScript script.now }
    requires serving { AreServing script.now stations.old.items callers.old.items }
    requires submitted { AllSubmitted callers.old.items }
    ensures serving { OnOk result (AreServing script.now stations.new.items callers.new.items) }
    ensures complete { OnOk result (AreComplete script.now stations.new.items) }
{
    loop {
        if !take_more(script, stations, callers, gate)? {
            return Ok(());
        }
    }
}

// Each station takes in a command of each client that has one more; false where no client had.
fn take_more<G: Gate>(
    script: &Script,
    stations: &mut Vec<Station>,
    callers: &mut Vec<Caller>,
    gate: &G,
) -> Result<bool, AllocError>
    requires kept { IsScript script.now }
    requires serving { AreServing script.now stations.old.items callers.old.items }
    requires submitted { AllSubmitted callers.old.items }
    ensures serving { OnOk result (AreServing script.now stations.new.items callers.new.items) }
    ensures submitted { OnOk result (AllSubmitted callers.new.items) }
    ensures more { IfOk result (λ more. more ≡ true → all_lack script.now stations.new.items < all_lack script.now stations.old.items) }
    ensures none { IfOk result (λ more. more ≡ false → AreComplete script.now stations.new.items) }
{
    look_all(script, stations, callers);
    are_kept(stations);
    let more = turn_all(stations, gate)?;
    look_all(script, stations, callers);
    are_kept(stations);
    Ok(more)
}

// All sessions and their seats look at their rings.
fn look_all(_script: &Script, stations: &mut Vec<Station>, callers: &mut Vec<Caller>)
    requires { AreServing _script.now stations.old.items callers.old.items }
    ensures { CallersLook _script.now (length callers.new.items) stations.old.items callers.old.items stations.new.items callers.new.items }
{
    for client in 0..callers.len() {
        look_at(_script, stations, callers, client);
    }
}

fn look_at(_script: &Script, stations: &mut Vec<Station>, callers: &mut Vec<Caller>, client: usize)
    requires inside { client < length callers.old.items }
    requires serving { AreServing _script.now stations.old.items callers.old.items }
    ensures { CallerLooks _script.now client stations.old.items callers.old.items stations.new.items callers.new.items }
{
    let home = usize::from(callers[client].home());
    look(&mut stations[home], &mut callers[client]);
}

fn look(station: &mut Station, caller: &mut Caller)
    requires { IsSeated caller.old.session station.old.seats }
    ensures looks { SeatLooks station.old.runner.log.entries caller.old.session caller.new.session station.old.seats station.new.seats }
    ensures stay { StaySeated station.old.seats station.new.seats }
    ensures runner { station.new.runner ≡ station.old.runner }
    ensures calls { Calls caller.old caller.new }
{
    station.beside(&mut caller.session);
}

/// What each station keeps.
pub(crate) fn are_kept(stations: &[Station])
    ensures { AreStationsKept stations.now }
{
    for place in 0..stations.len() {
        is_kept(&stations[place]);
    }
}

fn is_kept(station: &Station)
    ensures { IsKept station.now }
{
    station.kept();
    station.commands();
}

// Each station makes a turn; true where one of them has appended a command.
fn turn_all<G: Gate>(stations: &mut Vec<Station>, gate: &G) -> Result<bool, AllocError>
    ensures { IfOk result (λ more. AllTurn more stations.old.items stations.new.items) }
{
    let mut more = false;
    for place in 0..stations.len() {
        if turn_at(stations, place, gate)? {
            more = true;
        }
    }
    Ok(more)
}

fn turn_at<G: Gate>(stations: &mut Vec<Station>, place: usize, gate: &G) -> Result<bool, AllocError>
    requires { place < length stations.old.items }
    ensures { IfOk result (λ more. TurnsAt more place stations.old.items stations.new.items) }
{
    let more = turn(&mut stations[place], gate)?;
    Ok(more)
}

fn turn<G: Gate>(station: &mut Station, gate: &G) -> Result<bool, AllocError>
    ensures { IfOk result (λ more. Turns more station.old station.new) }
{
    let before = station.commands();
    if let Turned::NoMemory = station.turn(gate) {
        return Err(AllocError);
    }
    Ok(station.commands() > before)
}
