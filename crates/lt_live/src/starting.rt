// All stations and sessions of a script.
ghost use Rattle.std.specs.Prelude.{◌≡◌, ◌<◌, ◌≤◌, ◌+◌, [], length, IfOk, OnOk};
ghost use Rattle.lt_spec.specs.declared.moves.TheConstants.{MAX_MOVES_OF_SERVICE};
ghost use Rattle.lt_spec.specs.declared.limits.TheConstants.{MAX_COMMANDS};
ghost use Rattle.lt_live.specs.Stations.{Opens, IsOpen, AreSeatless, HaveNoCommands, most_share};

use crate::ends::Session;
use crate::limits::LETTER_PLACES;
use crate::opening::new_session;
use crate::station::Station;
use lt_runner::Runner;
use lt_script::Script;
use lt_threads::start_crew;
use std::alloc::{AllocError, Global};

/// A station for each node of the script, and a session for each client, in order.
///
/// Each node makes up to `limit` moves. A session's rings of commands and of replies have `capacity` places each, and it may
/// submit `share` commands in its life.
pub fn open(
    alloc: Global,
    script: &Script,
    limit: u64,
    capacity: u32,
    share: u64,
) -> Result<(Vec<Station>, Vec<Session>), AllocError>
    requires commands { script.now.commands ≡ [] }
    requires limit { (0 < limit) × (limit ≤ MAX_MOVES_OF_SERVICE) }
    requires capacity { (0 < capacity) × (capacity ≤ MAX_COMMANDS) }
    requires share { share ≤ most_share script.now }
    ensures { IfOk result (λ opened. IsOpen script.now limit capacity share opened.0.items opened.1.items) }
{
    let runners = start_crew(alloc, script, LETTER_PLACES, limit)?;
    let mut stations = stations_of(alloc, runners)?;
    let mut sessions = Vec::new(alloc);
    for client in 0..script.clients() {
        add_session(
            alloc,
            script,
            client,
            limit,
            capacity,
            share,
            &mut stations,
            &mut sessions,
        )?;
    }
    Ok((stations, sessions))
}

// A station for each runner, with no seats yet.
fn stations_of(alloc: Global, runners: Vec<Runner>) -> Result<Vec<Station>, AllocError>
    requires { HaveNoCommands runners.items }
    ensures { IfOk result (λ stations. AreSeatless runners.items stations.items) }
{
    let mut stations = Vec::new(alloc);
    for runner in runners {
        stations.push(Station::new(alloc, runner))?;
    }
    Ok(stations)
}

// The session of the next client, with its seat at the station of its node.
fn add_session(
    alloc: Global,
    script: &Script,
    client: u16,
    _limit: u64,
    capacity: u32,
    share: u64,
    stations: &mut Vec<Station>,
    sessions: &mut Vec<Session>,
) -> Result<(), AllocError>
    requires client { client < length script.now.clients }
    requires commands { script.now.commands ≡ [] }
    requires capacity { 0 < capacity }
    requires opening { Opens script.now _limit capacity share client stations.old.items sessions.old.items }
    ensures { OnOk result (Opens script.now _limit capacity share (client + 1) stations.new.items sessions.new.items) }
{
    let home = usize::from(script.home(client));
    let place = stations[home].seats();
    let (session, seat) = new_session(alloc, script, client, place, share, capacity)?;
    stations[home].add_seat(seat)?;
    sessions.push(session)?;
    Ok(())
}
