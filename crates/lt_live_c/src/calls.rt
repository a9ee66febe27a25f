// What the calls on stations and sessions do with what a handle stands for.
ghost use Rattle.std.specs.Prelude.{◌≡◌};
ghost use Rattle.lt_spec.specs.Script.{set_number};
ghost use Rattle.lt_live.specs.Words.{SameSession};
ghost use Rattle.lt_live.specs.Live.{StationGoesOn};
ghost use Rattle.lt_apart.specs.Remote.{CarriesNone};
ghost use Rattle.lt_live_c.specs.Taking.{ContentGoesOn, OnStation, OnSession};
ghost use Rattle.lt_live_c.specs.Forgetting.{ForgetsStation};
ghost use Rattle.lt_live_c.specs.Calls.{TurnsStation, Submits, Polls, left_in, client_of, home_of_content, TellsSet, TellsNumber};

use crate::code::{
    BAD_ARGUMENT, FULL, NO_MEMORY, NOTHING, OK, SPENT, WRONG_HANDLE, number_of_reply,
    number_of_turn,
};
use crate::content::Content;
use lt_apart::Remote;
use lt_live::{Session, Station};
use lt_modes::Command;
use lt_runner::Open;
use std::alloc::Global;

#[tactic(auto, using(lt_live::proofs::Settling::same_sessions))]
pub fn turn(content: &mut Content) -> u32
    ensures goes_on { ContentGoesOn content.old content.new }
    ensures turns { OnStation result (TurnsStation result) content.old content.new }
{
    match content {
        Content::Station(station) => turn_of(station),
        Content::Node(node) => turn_at(&mut node.remote),
        _ => WRONG_HANDLE,
    }
}

fn turn_of(station: &mut Station) -> u32
    ensures goes_on { StationGoesOn station.old station.new }
    ensures turns { TurnsStation result station.old station.new }
{
    number_of_turn(station.turn(&Open))
}

#[tactic(auto, using(lt_live::proofs::Settling::same_sessions))]
pub fn forget(content: &mut Content, alloc: Global) -> u32
    ensures goes_on { ContentGoesOn content.old content.new }
    ensures forgets { OnStation result (ForgetsStation result) content.old content.new }
{
    match content {
        Content::Station(station) => forget_by(station, alloc),
        Content::Node(node) => forget_at(&mut node.remote, alloc),
        _ => WRONG_HANDLE,
    }
}

#[tactic(auto, using(crate::proofs::Forgetting::goes_on_join))]
fn forget_by(station: &mut Station, alloc: Global) -> u32
    ensures goes_on { StationGoesOn station.old station.new }
    ensures forgets { ForgetsStation result station.old station.new }
{
    let Ok(()) = station.forget_moves() else {
        return NO_MEMORY;
    };
    match station.forget_commands(alloc) {
        Ok(()) => OK,
        Err(_) => NO_MEMORY,
    }
}

fn turn_at(remote: &mut Remote) -> u32
    ensures goes_on { StationGoesOn remote.old.station remote.new.station }
    ensures turns { TurnsStation result remote.old.station remote.new.station }
    ensures carried { CarriesNone remote.old remote.new }
{
    number_of_turn(remote.turn(&Open))
}

#[tactic(auto, using(crate::proofs::Forgetting::goes_on_join))]
fn forget_at(remote: &mut Remote, alloc: Global) -> u32
    ensures goes_on { StationGoesOn remote.old.station remote.new.station }
    ensures forgets { ForgetsStation result remote.old.station remote.new.station }
    ensures carried { CarriesNone remote.old remote.new }
{
    let Ok(()) = remote.forget_moves() else {
        return NO_MEMORY;
    };
    match remote.forget_commands(alloc) {
        Ok(()) => OK,
        Err(_) => NO_MEMORY,
    }
}

#[tactic(auto, using(lt_live::specs::Live::station_goes_on_itself))]
pub fn submit(content: &mut Content, command: Option<Command>) -> u32
    ensures goes_on { ContentGoesOn content.old content.new }
    ensures submits { OnSession result (Submits result command) content.old content.new }
{
    match content {
        Content::Session(session) => submit_to(session, command),
        _ => WRONG_HANDLE,
    }
}

#[tactic(auto, using(lt_live::proofs::Settling::same_sessions))]
fn submit_to(session: &mut Session, command: Option<Command>) -> u32
    ensures same { SameSession session.old session.new }
    ensures submits { Submits result command session.old session.new }
{
    let Some(command) = command else {
        return BAD_ARGUMENT;
    };
    if !session.may_submit(command) {
        return BAD_ARGUMENT;
    }
    if session.left() == 0 {
        return SPENT;
    }
    match session.submit(command) {
        Ok(()) => OK,
        Err(_) => FULL,
    }
}

#[tactic(auto, using(lt_live::specs::Live::station_goes_on_itself))]
pub fn poll(content: &mut Content, count: &mut u64) -> u32
    ensures goes_on { ContentGoesOn content.old content.new }
    ensures polls { OnSession result (Polls result count.old count.new) content.old content.new }
{
    match content {
        Content::Session(session) => poll_from(session, count),
        _ => WRONG_HANDLE,
    }
}

fn poll_from(session: &mut Session, count: &mut u64) -> u32
    ensures same { SameSession session.old session.new }
    ensures polls { Polls result count.old count.new session.old session.new }
{
    match session.poll() {
        Some(reply) => number_of_reply(reply, count),
        None => NOTHING,
    }
}

/// Tells the number of the session's set with this name.
pub fn tell_set(content: &Content, name: &[u8], set: &mut u32) -> u32
    ensures { TellsSet content.now name.now result set.old set.new }
{
    match content {
        Content::Session(session) => tell_set_of(session, name, set),
        _ => WRONG_HANDLE,
    }
}

fn tell_set_of(session: &Session, name: &[u8], set: &mut u32) -> u32
    ensures { TellsNumber (set_number session.now.script name.now) result set.old set.new }
{
    match session.set(name) {
        Some(number) => {
            *set = number;
            OK
        }
        None => NOTHING,
    }
}

/// How many commands may still be submitted; 0 where it is no session.
pub fn left(content: &Content) -> u64
    ensures { result ≡ left_in content.now }
{
    match content {
        Content::Session(session) => session.left(),
        _ => 0,
    }
}

/// The number of the session's client; 0 where it is no session.
pub fn client(content: &Content) -> u32
    ensures { result ≡ client_of content.now }
{
    match content {
        Content::Session(session) => u32::from(session.client()),
        _ => 0,
    }
}

/// The node of the session's client; 0 where it is no session.
pub fn home(content: &Content) -> u32
    ensures { result ≡ home_of_content content.now }
{
    match content {
        Content::Session(session) => u32::from(session.script().home(session.client())),
        _ => 0,
    }
}
