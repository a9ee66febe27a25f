// The calls on services.
ghost use Rattle.std.specs.Prelude.{◌≡◌, ◌≢◌, true, Some, None, IsSome, map};
ghost use Rattle.lt_live_c.specs.Taking.{IsWholeService, stands_for_service as is_service, IsWholeHandle, IsWholeIfAny, IsNoService, HandleTakesStation, HandleTakesSession, HandleHasNoStation, HandleHasNoSession, HandleGives, HandleKeeps, KeepsAll, HandleGiveRefused, NoStation, NoSession};
ghost use Rattle.lt_live_c.specs.Serving.{IsWholeHandleIfAll, HandleTellsServed, HandleNotTold};
ghost use Rattle.lt_live_c.specs.NewSets.{words_of_set};
ghost use Rattle.lt_live_c.specs.KeySets.{key_sets};
ghost use Rattle.lt_live_c.specs.Opening.{HandleOpened, OpenRefused, HandleOpenedWith, OpenSetsRefused};
ghost use Rattle.lt_live_c.specs.Journals.{HandleFinishes, HandleNotFinished, FinishRefused};

use crate::boxes::{put, room, take};
use crate::code::{NO_MEMORY, OK, WRONG_HANDLE};
use crate::content::Content;
use crate::handle::Handle;
use crate::journal::Journal;
use crate::new_sets::NewSet;
use crate::service::Service;
use crate::serving::tell_served;
use crate::taking::{
    give_back, next_session, next_station, no_session, no_station, stands_for_service,
};
use std::alloc::Global;
use std::mem::replace;

/// Opens the script: `service` stands for its stations and sessions.
#[unsafe(no_mangle)]
#[tactic(auto, using(crate::proofs::Unopened::no_memory))]
pub extern "C" fn lockrun_open(
    alloc: Global,
    text: &[u8],
    limit: u64,
    places: u32,
    service: &mut Handle,
) -> u32
    ensures opened { result ≡ OK → HandleOpened text.now limit places service.new.value }
    ensures whole { result ≡ OK → IsWholeHandle service.new.value }
    ensures keeps { result ≢ OK → service.new.value ≡ service.old.value }
    ensures refused { result ≢ OK → OpenRefused result text.now limit places }
{
    let opened = match Service::open(alloc, text, limit, places) {
        Ok(opened) => opened,
        Err(code) => return code,
    };
    let Ok(room) = room(alloc) else {
        return NO_MEMORY;
    };
    put(room, Content::Service(opened), service)
}

/// Opens the script with further sets: `service` stands for its stations and sessions.
#[unsafe(no_mangle)]
#[tactic(auto, using(crate::proofs::Unopened::no_memory_with))]
pub extern "C" fn lockrun_open_sets(
    alloc: Global,
    text: &[u8],
    sets: &[NewSet<'_>],
    limit: u64,
    places: u32,
    service: &mut Handle,
) -> u32
    ensures opened { result ≡ OK → HandleOpenedWith text.now (map words_of_set sets.now) limit places
        service.new.value }
    ensures whole { result ≡ OK → IsWholeHandle service.new.value }
    ensures keeps { result ≢ OK → service.new.value ≡ service.old.value }
    ensures refused { result ≢ OK → OpenSetsRefused result text.now (map words_of_set sets.now) limit places }
{
    let opened = match Service::open_sets(alloc, text, sets, limit, places) {
        Ok(opened) => opened,
        Err(code) => return code,
    };
    let Ok(room) = room(alloc) else {
        return NO_MEMORY;
    };
    put(room, Content::Service(opened), service)
}

/// Opens the script with families of sets for keys: `service` stands for its stations and sessions.
#[unsafe(no_mangle)]
#[tactic(auto, using(crate::proofs::Unopened::no_memory_with))]
pub extern "C" fn lockrun_open_keys(
    alloc: Global,
    text: &[u8],
    families: u32,
    members: u32,
    limit: u64,
    places: u32,
    service: &mut Handle,
) -> u32
    ensures opened { result ≡ OK → HandleOpenedWith text.now (key_sets families members) limit places
        service.new.value }
    ensures whole { result ≡ OK → IsWholeHandle service.new.value }
    ensures keeps { result ≢ OK → service.new.value ≡ service.old.value }
    ensures refused { result ≢ OK → OpenSetsRefused result text.now (key_sets families members) limit places }
{
    let opened = match Service::open_keys(alloc, text, families, members, limit, places) {
        Ok(opened) => opened,
        Err(code) => return code,
    };
    let Ok(room) = room(alloc) else {
        return NO_MEMORY;
    };
    put(room, Content::Service(opened), service)
}

/// Takes the next station of the service.
#[unsafe(no_mangle)]
pub extern "C" fn lockrun_take_station(
    alloc: Global,
    service: &mut Handle,
    station: &mut Handle,
) -> u32
    ensures takes { result ≡ OK → HandleTakesStation station.new.value service.old.value service.new.value }
    ensures keeps { result ≢ OK → (service.new.value ≡ service.old.value) × (station.new.value ≡ station.old.value) }
    ensures refused { result ≢ OK → HandleHasNoStation result service.old.value }
    ensures some { IsSome service.old.value → IsSome service.new.value }
{
    let Some(mut inside) = take(alloc, service) else {
        return WRONG_HANDLE;
    };
    let code = take_station_from(alloc, &mut inside, station);
    *service = Handle::of(inside);
    code
}

/// Takes the next session of the service.
#[unsafe(no_mangle)]
pub extern "C" fn lockrun_take_session(
    alloc: Global,
    service: &mut Handle,
    session: &mut Handle,
) -> u32
    ensures takes { result ≡ OK → HandleTakesSession session.new.value service.old.value service.new.value }
    ensures keeps { result ≢ OK → (service.new.value ≡ service.old.value) × (session.new.value ≡ session.old.value) }
    ensures refused { result ≢ OK → HandleHasNoSession result service.old.value }
    ensures some { IsSome service.old.value → IsSome service.new.value }
{
    let Some(mut inside) = take(alloc, service) else {
        return WRONG_HANDLE;
    };
    let code = take_session_from(alloc, &mut inside, session);
    *service = Handle::of(inside);
    code
}

// Memory is asked for once there is a station to be taken.
#[tactic(auto, using(crate::proofs::Untaken::no_station_so, crate::proofs::Untaken::no_room_for_station))]
fn take_station_from(alloc: Global, content: &mut Content, station: &mut Handle) -> u32
    ensures takes { result ≡ OK → HandleTakesStation station.new.value (Some content.old) (Some content.new) }
    ensures keeps { result ≢ OK → (content.new ≡ content.old) × (station.new.value ≡ station.old.value) }
    ensures refused { result ≢ OK → NoStation result content.old }
{
    if let Some(code) = no_station(content) {
        return code;
    }
    let Ok(room) = room(alloc) else {
        return NO_MEMORY;
    };
    match next_station(content) {
        Some(next) => put(room, Content::Station(next), station),
        None => unreachable!(),
    }
}

// Memory is asked for once there is a session to be taken.
#[tactic(auto, using(crate::proofs::Untaken::no_session_so, crate::proofs::Untaken::no_room_for_session))]
fn take_session_from(alloc: Global, content: &mut Content, session: &mut Handle) -> u32
    ensures takes { result ≡ OK → HandleTakesSession session.new.value (Some content.old) (Some content.new) }
    ensures keeps { result ≢ OK → (content.new ≡ content.old) × (session.new.value ≡ session.old.value) }
    ensures refused { result ≢ OK → NoSession result content.old }
{
    if let Some(code) = no_session(content) {
        return code;
    }
    let Ok(room) = room(alloc) else {
        return NO_MEMORY;
    };
    match next_session(content) {
        Some(next) => put(room, Content::Session(next), session),
        None => unreachable!(),
    }
}

/// Gives a station or a session back to the service: behind all others that it has.
#[unsafe(no_mangle)]
pub extern "C" fn lockrun_give(alloc: Global, service: &mut Handle, given: &mut Handle) -> u32
    ensures gives { result ≡ OK → HandleGives given.old.value service.old.value service.new.value }
    ensures gone { result ≡ OK → given.new.value ≡ None }
    ensures keeps { result ≢ OK → (given.new.value ≡ given.old.value)
        × HandleKeeps service.old.value service.new.value }
    ensures refused { result ≢ OK → HandleGiveRefused result given.old.value service.old.value }
    ensures some { IsSome service.old.value → IsSome service.new.value }
{
    let Some(mut inside) = take(alloc, service) else {
        return WRONG_HANDLE;
    };
    let code = give_from(alloc, &mut inside, given);
    *service = Handle::of(inside);
    code
}

// What the handle stands for goes to the content, if that is a service.
#[tactic(auto, using(crate::proofs::Kept::keeps_itself))]
fn give_from(alloc: Global, content: &mut Content, given: &mut Handle) -> u32
    ensures gives { result ≡ OK → HandleGives given.old.value (Some content.old) (Some content.new) }
    ensures gone { result ≡ OK → given.new.value ≡ None }
    ensures keeps { result ≢ OK → (given.new.value ≡ given.old.value) × KeepsAll content.old content.new }
    ensures refused { result ≢ OK → HandleGiveRefused result given.old.value (Some content.old) }
{
    let Some(mut room) = take(alloc, given) else {
        return WRONG_HANDLE;
    };
    let back = replace(&mut *room, Content::Journal(Journal::empty(alloc)));
    match give_back(content, back) {
        Ok(()) => OK,
        Err((code, back)) => {
            put(room, back, given);
            code
        }
    }
}

/// Tells how many commands were submitted to a service so far, and how many replies were polled, once all its stations
/// and sessions were given back in order. There is a run in which they were served so, and the service goes on.
#[unsafe(no_mangle)]
pub extern "C" fn lockrun_served(
    alloc: Global,
    service: &mut Handle,
    submitted: &mut usize,
    polled: &mut usize,
) -> u32
    requires whole { IsWholeHandleIfAll service.old.value }
    ensures some { IsSome service.old.value → IsSome service.new.value }
    ensures tells { result ≡ OK → HandleTellsServed submitted.new polled.new service.old.value service.new.value }
    ensures keeps { result ≢ OK → service.new.value ≡ service.old.value }
    ensures untold { result ≢ OK → (submitted.new ≡ submitted.old) × (polled.new ≡ polled.old) }
    ensures refused { result ≢ OK → HandleNotTold result service.old.value }
{
    let Some(mut inside) = take(alloc, service) else {
        return WRONG_HANDLE;
    };
    let told = tell_served(&mut inside);
    *service = Handle::of(inside);
    match told {
        Ok(totals) => {
            *submitted = totals.submitted;
            *polled = totals.polled;
            OK
        }
        Err(code) => code,
    }
}

/// Ends the service, all of whose stations and sessions were given back in order: `journal` stands for what they did.
/// Without memory, where a station has forgotten moves or commands, or where there are more commands or sets than the
/// text of a script may have, all is dropped.
#[unsafe(no_mangle)]
pub extern "C" fn lockrun_finish(alloc: Global, service: &mut Handle, journal: &mut Handle) -> u32
    requires whole { IsWholeIfAny service.old.value }
    ensures journal { result ≡ OK → HandleFinishes service.old.value journal.new.value }
    ensures gone { result ≢ WRONG_HANDLE → service.new.value ≡ None }
    ensures wrong { result ≡ WRONG_HANDLE → IsNoService service.old.value × (service.new.value ≡ service.old.value) }
    ensures keeps { result ≢ OK → journal.new.value ≡ journal.old.value }
    ensures refused { result ≢ OK → HandleNotFinished result service.old.value }
{
    let Some(room) = take(alloc, service) else {
        return WRONG_HANDLE;
    };
    if !stands_for_service(&room) {
        *service = Handle::of(room);
        return WRONG_HANDLE;
    }
    finish_in(alloc, room, journal)
}

// The service in the box ends, and the handle stands for its journal then.
fn finish_in(alloc: Global, mut room: Box<Content>, journal: &mut Handle) -> u32
    requires service { is_service room.value ≡ true }
    requires whole { IsWholeService room.value }
    ensures journal { result ≡ OK → HandleFinishes (Some room.value) journal.new.value }
    ensures right { result ≢ WRONG_HANDLE }
    ensures keeps { result ≢ OK → journal.new.value ≡ journal.old.value }
    ensures refused { result ≢ OK → FinishRefused result room.value }
{
    let content = replace(&mut *room, Content::Journal(Journal::empty(alloc)));
    match content.journal(alloc) {
        Ok(made) => put(room, made, journal),
        Err(code) => code,
    }
}

/// Frees what the handle stands for, if it does.
#[unsafe(no_mangle)]
pub extern "C" fn lockrun_free(alloc: Global, handle: &mut Handle)
    ensures { handle.new.value ≡ None }
{
    drop(take(alloc, handle));
}
