// Brings all commands to their stations.
ghost use Rattle.std.specs.Prelude.{◌≡◌, ◌<◌, true, false, length, IfOk, OnOk};
ghost use Rattle.lt_spec.specs.NodeMove.{home};
ghost use Rattle.lt_live_callers.specs.Taking.{AreAsking, OnlyTakes, HaveTakenAll, SessionsLook, SessionLooks, StationTakesTurn, StationTakesTurnAt, AllStationsTurn, all_room};

use lt_live::{Session, Station};
use lt_runner::{Open, Turned};
use lt_script::Script;
use std::alloc::AllocError;

/// Lets the stations make turns until they have appended all commands that were submitted, and make no more moves.
pub(crate) fn take_all_in(
    script: &Script,
    stations: &mut Vec<Station>,
    sessions: &mut Vec<Session>,
) -> Result<(), AllocError>
    requires { AreAsking script.now stations.old.items sessions.old.items }
    ensures takes { OnOk result (OnlyTakes script.now
        stations.old.items sessions.old.items stations.new.items sessions.new.items) }
    ensures taken { OnOk result (HaveTakenAll script.now stations.new.items sessions.new.items) }
{
    loop {
        if !take_more(script, stations, sessions)? {
            return Ok(());
        }
    }
}

// Each station makes a turn, between two looks at the rings of all sessions; false where no move was made and no
// command appended.
fn take_more(
    script: &Script,
    stations: &mut Vec<Station>,
    sessions: &mut Vec<Session>,
) -> Result<bool, AllocError>
    requires { AreAsking script.now stations.old.items sessions.old.items }
    ensures takes { OnOk result (OnlyTakes script.now
        stations.old.items sessions.old.items stations.new.items sessions.new.items) }
    ensures more { IfOk result (λ more. more ≡ true
        → all_room stations.new.items < all_room stations.old.items) }
    ensures none { IfOk result (λ more. more ≡ false
        → HaveTakenAll script.now stations.new.items sessions.new.items) }
{
    look_all(script, stations, sessions);
    let more = turn_all(stations)?;
    look_all(script, stations, sessions);
    Ok(more)
}

// All sessions and their seats look at their rings.
fn look_all(_script: &Script, stations: &mut Vec<Station>, sessions: &mut Vec<Session>)
    requires { AreAsking _script.now stations.old.items sessions.old.items }
    ensures { SessionsLook _script.now (length sessions.new.items)
        stations.old.items sessions.old.items stations.new.items sessions.new.items }
{
    for client in 0..sessions.len() {
        look_at(_script, stations, sessions, client);
    }
}

fn look_at(
    _script: &Script,
    stations: &mut Vec<Station>,
    sessions: &mut Vec<Session>,
    client: usize,
)
    requires inside { client < length sessions.old.items }
    requires asking { AreAsking _script.now stations.old.items sessions.old.items }
    ensures { SessionLooks _script.now client
        stations.old.items sessions.old.items stations.new.items sessions.new.items }
{
    let home = usize::from(home_of(&sessions[client]));
    stations[home].beside(&mut sessions[client]);
}

// The node of the session's client.
fn home_of(session: &Session) -> u8
    ensures { result ≡ home session.now.script session.now.client }
{
    session.script().home(session.client())
}

// Each station makes a turn; true where one of them made a move or appended a command.
fn turn_all(stations: &mut Vec<Station>) -> Result<bool, AllocError>
    ensures { IfOk result (λ more. AllStationsTurn more stations.old.items stations.new.items) }
{
    let mut more = false;
    for place in 0..stations.len() {
        if turn_at(stations, place)? {
            more = true;
        }
    }
    Ok(more)
}

fn turn_at(stations: &mut Vec<Station>, place: usize) -> Result<bool, AllocError>
    requires { place < length stations.old.items }
    ensures { IfOk result (λ more. StationTakesTurnAt more place stations.old.items stations.new.items) }
{
    let more = turn(&mut stations[place])?;
    Ok(more)
}

fn turn(station: &mut Station) -> Result<bool, AllocError>
    ensures { IfOk result (λ more. StationTakesTurn more station.old station.new) }
{
    station.kept();
    let before = station.commands();
    let turned = station.turn(&Open);
    station.kept();
    let after = station.commands();
    match turned {
        Turned::NoMemory => Err(AllocError),
        Turned::Moved => Ok(true),
        Turned::Quiet | Turned::Full => Ok(after > before),
    }
}
