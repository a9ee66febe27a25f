ghost use Rattle.std.specs.Prelude.{◌≡◌, ◌<◌, [], length};
ghost use Rattle.lt_live.specs.Live.{LiveScript, EachStation, StationGoesOn, EachSession};
ghost use Rattle.lt_live.specs.Words.{SameSession};

use crate::telling::{holds, same};
use crate::together::read_text;
use lt_live::{FinishError, Reply, Session, Station, finish, most_share, open, served};
use lt_modes::{Command, Mode};
use lt_runner::{Open, Turned};
use lt_script::{MAX_COMMANDS, MAX_COMMANDS_OF_SERVICE, Script, SetByName};
use std::alloc::Global;
use std::process::Abort;

const ONE_CLIENT: &str = "nodes 1\n\
set s\n\
client a at 0\n";

const TWO_CLIENTS: &str = "version 3\n\
nodes 1\n\
set s\n\
client a at 0\n\
client b at 0\n";

pub(crate) const LOCK: Command = Command::Lock {
    set: 0,
    mode: Mode::Write,
};

const UNLOCK: Command = Command::Unlock {
    set: 0,
    mode: Mode::Write,
};

// The script of a text without commands.
fn script_of<R: Abort>(rt: &R, alloc: Global, text: &str) -> Script
    ensures { result.commands ≡ [] }
{
    let script = read_text(rt, alloc, text);
    holds(rt, script.commands() == 0);
    script
}

// The stations and sessions of the script, with rings of one place.
fn live<R: Abort>(rt: &R, alloc: Global, script: &Script) -> (Vec<Station>, Vec<Session>)
    requires { script.now.commands ≡ [] }
    ensures { LiveScript result.0.items result.1.items }
{
    open(alloc, script, 10_000, 1, most_share(script)).expect(rt, "memory")
}

/// The stations of this text's nodes, and the first client's session.
pub(crate) fn opened<R: Abort>(rt: &R, alloc: Global, text: &str) -> (Vec<Station>, Session) {
    let script = script_of(rt, alloc, text);
    let (stations, mut sessions) = live(rt, alloc, &script);
    holds(rt, !sessions.is_empty());
    (stations, sessions.remove(0))
}

// The one client of a script, and its station.
fn one_client<R: Abort>(rt: &R, alloc: Global) -> (Station, Session) {
    let (mut stations, session) = opened(rt, alloc, ONE_CLIENT);
    holds(rt, !stations.is_empty());
    (stations.remove(0), session)
}

/// Submits a command that may be submitted, and sees whether it is taken.
pub(crate) fn submit<R: Abort>(
    rt: &R,
    session: &mut Session,
    command: Command,
    taken: Result<(), Command>,
)
    ensures { SameSession session.old session.new }
{
    holds(rt, session.left() > 0);
    holds(rt, session.may_submit(command));
    same(rt, session.submit(command), taken);
}

/// Sees which reply is polled.
pub(crate) fn poll<R: Abort>(rt: &R, session: &mut Session, reply: Option<Reply>) {
    same(rt, session.poll(), reply);
}

fn turn<R: Abort>(rt: &R, station: &mut Station, turned: Turned) {
    same(rt, station.turn(&Open), turned);
}

#[test]
fn a_full_ring_gives_the_command_back(rt: HostRuntime) {
    let (mut station, mut session) = one_client(&rt, rt.alloc());
    submit(&rt, &mut session, LOCK, Ok(()));
    submit(&rt, &mut session, UNLOCK, Err(UNLOCK));
    poll(&rt, &mut session, None);
    turn(&rt, &mut station, Turned::Moved);
    submit(&rt, &mut session, UNLOCK, Ok(()));
    poll(&rt, &mut session, Some(Reply::Granted));
    turn(&rt, &mut station, Turned::Moved);
    poll(&rt, &mut session, Some(Reply::Unlocked));
    turn(&rt, &mut station, Turned::Quiet);
    same(&rt, session.left(), MAX_COMMANDS_OF_SERVICE - 2);
    same(&rt, station.script().commands(), 2);
}

// The ring has a place for one reply, so the second one waits at the station, and meanwhile no command is taken.
#[test]
fn a_reply_is_told_though_its_move_is_forgotten(rt: HostRuntime) {
    let (mut station, mut session) = one_client(&rt, rt.alloc());
    submit(&rt, &mut session, LOCK, Ok(()));
    turn(&rt, &mut station, Turned::Moved);
    submit(&rt, &mut session, UNLOCK, Ok(()));
    turn(&rt, &mut station, Turned::Moved);
    same(&rt, station.forget_moves(), Ok(()));
    same(&rt, station.forget_commands(rt.alloc()), Ok(()));
    submit(&rt, &mut session, LOCK, Ok(()));
    poll(&rt, &mut session, Some(Reply::Granted));
    turn(&rt, &mut station, Turned::Quiet);
    poll(&rt, &mut session, Some(Reply::Unlocked));
    turn(&rt, &mut station, Turned::Moved);
    poll(&rt, &mut session, Some(Reply::Granted));
    same(&rt, station.commands(), 3);
    same(&rt, station.script().commands(), 1);
}

// Submits that the client gives up what it waits for in the first set.
fn withdraw<R: Abort>(rt: &R, session: &mut Session) {
    holds(rt, session.left() > 0);
    holds(rt, session.script().sets() > 0);
    holds(rt, session.script().version() == 3);
    same(rt, session.withdraw(0), Ok(()));
}

// The first client has the lock; the second one waits for it, and gives up. It is told of both of its commands, in order.
#[test]
fn a_wait_is_given_up(rt: HostRuntime) {
    let script = script_of(&rt, rt.alloc(), TWO_CLIENTS);
    let (mut stations, mut sessions) = live(&rt, rt.alloc(), &script);
    holds(&rt, !stations.is_empty());
    holds(&rt, sessions.len() > 1);
    let mut station = stations.remove(0);
    let mut second = sessions.remove(1);
    let mut first = sessions.remove(0);
    submit(&rt, &mut first, LOCK, Ok(()));
    turn(&rt, &mut station, Turned::Moved);
    poll(&rt, &mut first, Some(Reply::Granted));
    submit(&rt, &mut second, LOCK, Ok(()));
    turn(&rt, &mut station, Turned::Moved);
    poll(&rt, &mut second, None);
    withdraw(&rt, &mut second);
    turn(&rt, &mut station, Turned::Moved);
    poll(&rt, &mut second, Some(Reply::Withdrawn));
    turn(&rt, &mut station, Turned::Quiet);
    poll(&rt, &mut second, Some(Reply::True));
}

fn submit_first<R: Abort>(rt: &R, sessions: &mut Vec<Session>, command: Command)
    requires { 0 < length sessions.old.items }
    ensures { EachSession SameSession sessions.old.items sessions.new.items }
{
    submit(rt, &mut sessions[0], command, Ok(()));
}

fn turn_first(stations: &mut Vec<Station>) -> Turned
    requires { 0 < length stations.old.items }
    ensures { EachStation StationGoesOn stations.old.items stations.new.items }
{
    stations[0].turn(&Open)
}

fn poll_first(sessions: &mut Vec<Session>) -> Option<Reply>
    requires { 0 < length sessions.old.items }
    ensures { EachSession SameSession sessions.old.items sessions.new.items }
{
    sessions[0].poll()
}

// The first client's command is submitted, the first station makes a move, and this reply is polled.
fn exchange<R: Abort>(
    rt: &R,
    stations: &mut Vec<Station>,
    sessions: &mut Vec<Session>,
    command: Command,
    reply: Reply,
)
    requires { LiveScript stations.old.items sessions.old.items }
    ensures { LiveScript stations.new.items sessions.new.items }
{
    holds(rt, !stations.is_empty());
    holds(rt, !sessions.is_empty());
    submit_first(rt, sessions, command);
    turn_first(stations);
    same(rt, poll_first(sessions), Some(reply));
}

// The same, and all are served after it.
fn exchange_served<R: Abort>(
    rt: &R,
    stations: &mut Vec<Station>,
    sessions: &mut Vec<Session>,
    command: Command,
    reply: Reply,
)
    requires { LiveScript stations.old.items sessions.old.items }
    ensures { LiveScript stations.new.items sessions.new.items }
{
    exchange(rt, stations, sessions, command, reply);
    served(stations, sessions);
}

// Adds a set whose name ends in its number.
fn add_set<R: Abort>(rt: &R, alloc: Global, script: &mut Script) {
    let number = script.sets();
    let name = format!(in alloc; "s{number}").expect(rt, "memory");
    let told = script
        .set_by_name(name.as_bytes(), None)
        .expect(rt, "memory");
    same(rt, told, SetByName::Set(number));
}

// A client, and more sets than the text of a script may have.
fn many_sets<R: Abort>(rt: &R, alloc: Global) -> Script
    ensures { result.commands ≡ [] }
{
    let mut script = Script::new(alloc, 1).expect(rt, "memory");
    script.add_client(b"a", 0).expect(rt, "memory");
    for _ in 0..300 {
        add_set(rt, alloc, &mut script);
    }
    holds(rt, script.commands() == 0);
    script
}

// A client takes and gives back a lock of the last of many sets. All are served after each reply, and the service goes
// on.
#[test]
fn a_service_has_many_sets(rt: HostRuntime) {
    let script = many_sets(&rt, rt.alloc());
    let set = script.set_number(b"s299").expect(&rt, "the last set");
    let mode = Mode::Write;
    let (mut stations, mut sessions) = live(&rt, rt.alloc(), &script);
    let lock = Command::Lock { set, mode };
    exchange_served(&rt, &mut stations, &mut sessions, lock, Reply::Granted);
    let unlock = Command::Unlock { set, mode };
    exchange_served(&rt, &mut stations, &mut sessions, unlock, Reply::Unlocked);
    let (script, run) = finish(rt.alloc(), stations, sessions).expect(&rt, "a run");
    same(&rt, script.sets(), 300);
    same(&rt, script.commands(), 2);
    same(&rt, run.len(), 2);
}

// The first client submits more commands than the text of a script may have, and each is made.
#[test]
fn more_commands_than_a_text_has_are_made(rt: HostRuntime) {
    let script = script_of(&rt, rt.alloc(), ONE_CLIENT);
    let (mut stations, mut sessions) = live(&rt, rt.alloc(), &script);
    for _ in 0..=MAX_COMMANDS / 2 {
        exchange(&rt, &mut stations, &mut sessions, LOCK, Reply::Granted);
        exchange(&rt, &mut stations, &mut sessions, UNLOCK, Reply::Unlocked);
    }
    let refused = finish(rt.alloc(), stations, sessions).err();
    same(&rt, refused, Some(FinishError::TooMany));
}
