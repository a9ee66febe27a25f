// Commands that are submitted and served in one call.
ghost use Rattle.std.specs.Prelude.{◌≡◌, ◌≢◌, ◌<◌, IsSome, Some, IfOk, IfErr};
ghost use Rattle.lt_spec.specs.Script.{HasTargets, IsOfVersion};
ghost use Rattle.lt_live.specs.Words.{SameSession};
ghost use Rattle.lt_mail.specs.Telling.{TellsGiven};
ghost use Rattle.lt_live.specs.declared.obeying.Obeyed.TheVariants as ends;
ghost use Rattle.lt_live.specs.Live.{StationGoesOn};
ghost use Rattle.lt_live.specs.Obeying.{Obeys};
ghost use Rattle.lt_live.specs.Told.{TellsClients};
ghost use Rattle.lt_apart.specs.Remote.{CarriesNone};
ghost use Rattle.lt_live_c.specs.declared.code.TheConstants.{WRONG_HANDLE};
ghost use Rattle.lt_live_c.specs.Calls.{MaySubmit, free_places, command_numbered as the_command};
ghost use Rattle.lt_live_c.specs.Doing.{number_of_obeyed, count_of_obeyed, AtBoth, OnBoth, DoTells, MayNotDo};
ghost use Rattle.lt_live_c.specs.Taking.{HandleGoesOn, ContentGoesOn};

use crate::boxes::take;
use crate::code::{
    BAD_ARGUMENT, FULL, LOG_FULL, NO_MEMORY, NOTHING, SPENT, WRONG_HANDLE, command_numbered,
    number_of_reply,
};
use crate::content::Content;
use crate::handle::Handle;
use lt_apart::Remote;
use lt_live::{Clients, ObeyReport, Obeyed, Session, Station};
use lt_modes::Command;
use lt_runner::Open;
use std::alloc::Global;

/// Submits the command of these numbers, lets the station make turns while they make moves and no reply is known, 64 at
/// most, and polls.
#[unsafe(no_mangle)]
pub extern "C" fn lockrun_do(
    alloc: Global,
    station: &mut Handle,
    session: &mut Handle,
    kind: u32,
    set: u32,
    first: u32,
    second: u32,
    count: &mut u64,
    sent: &mut u64,
    told: &mut Clients,
) -> u32
    ensures some { IsSome station.old.value → IsSome station.new.value }
    ensures some_session { IsSome session.old.value → IsSome session.new.value }
    ensures goes_on { HandleGoesOn station.old.value station.new.value }
    ensures session_goes_on { HandleGoesOn session.old.value session.new.value }
    ensures does { AtBoth result (DoTells result (the_command kind set first second) count.old count.new sent.new
        told.new.words) station.old.value station.new.value session.old.value session.new.value }
    ensures untold { result ≡ WRONG_HANDLE
        → (count.new ≡ count.old) × ((sent.new ≡ sent.old) × (told.new ≡ told.old)) }
{
    let command = command_numbered(kind, set, first, second);
    let Some(mut node) = take(alloc, station) else {
        return WRONG_HANDLE;
    };
    let code = do_at(alloc, &mut node, session, command, count, sent, told);
    *station = Handle::of(node);
    code
}

fn do_at(
    alloc: Global,
    node: &mut Content,
    session: &mut Handle,
    command: Option<Command>,
    count: &mut u64,
    sent: &mut u64,
    told: &mut Clients,
) -> u32
    ensures some { IsSome session.old.value → IsSome session.new.value }
    ensures goes_on { ContentGoesOn node.old node.new }
    ensures session_goes_on { HandleGoesOn session.old.value session.new.value }
    ensures does { AtBoth result (DoTells result command count.old count.new sent.new told.new.words)
        (Some node.old) (Some node.new) session.old.value session.new.value }
    ensures untold { result ≡ WRONG_HANDLE
        → (count.new ≡ count.old) × ((sent.new ≡ sent.old) × (told.new ≡ told.old)) }
{
    let Some(mut inside) = take(alloc, session) else {
        return WRONG_HANDLE;
    };
    let code = do_with(node, &mut inside, command, count, sent, told);
    *session = Handle::of(inside);
    code
}

fn do_with(
    node: &mut Content,
    client: &mut Content,
    command: Option<Command>,
    count: &mut u64,
    sent: &mut u64,
    told: &mut Clients,
) -> u32
    ensures goes_on { ContentGoesOn node.old node.new }
    ensures session_goes_on { ContentGoesOn client.old client.new }
    ensures does { OnBoth result (DoTells result command count.old count.new sent.new told.new.words)
        node.old node.new client.old client.new }
    ensures untold { result ≡ WRONG_HANDLE
        → (count.new ≡ count.old) × ((sent.new ≡ sent.old) × (told.new ≡ told.old)) }
{
    let Content::Session(session) = client else {
        return WRONG_HANDLE;
    };
    match node {
        Content::Station(station) => do_of(station, session, command, count, sent, told),
        Content::Node(node) => do_on(&mut node.remote, session, command, count, sent, told),
        _ => WRONG_HANDLE,
    }
}

#[tactic(auto, using(lt_live::proofs::Marking::adds_alone, lt_live::proofs::Marking::adds_none))]
fn do_of(
    station: &mut Station,
    session: &mut Session,
    command: Option<Command>,
    count: &mut u64,
    sent: &mut u64,
    told: &mut Clients,
) -> u32
    ensures goes_on { StationGoesOn station.old station.new }
    ensures same { SameSession session.old session.new }
    ensures does { DoTells result command count.old count.new sent.new told.new.words station.old station.new
        session.old session.new }
    ensures right { result ≡ WRONG_HANDLE → ⊥ }
{
    match may_do(session, command) {
        Ok(command) => report(obey_of(station, session, command, told), count, sent),
        Err(code) => {
            told.clear();
            *sent = 0;
            code
        }
    }
}

// Submits and serves it, and marks the clients that were told replies, and no others.
#[tactic(auto, using(lt_live::proofs::Marking::adds_alone))]
fn obey_of(
    station: &mut Station,
    session: &mut Session,
    command: Command,
    told: &mut Clients,
) -> ObeyReport
    requires left { 0 < session.old.left }
    requires may { MaySubmit session.old command }
    ensures obeys { Obeys result.obeyed command session.old session.new station.old station.new }
    ensures place { 0 < free_places session.old → result.obeyed ≢ ends.Refused }
    ensures sent { TellsGiven result.sent station.old.runner.mail station.new.runner.mail }
    ensures told { TellsClients told.new station.old.seats station.new.seats }
    ensures goes_on { StationGoesOn station.old station.new }
    ensures same { SameSession session.old session.new }
{
    told.clear();
    station.obey(session, command, &Open, told)
}

#[tactic(auto, using(lt_live::proofs::Marking::adds_alone, lt_live::proofs::Marking::adds_none))]
fn do_on(
    remote: &mut Remote,
    session: &mut Session,
    command: Option<Command>,
    count: &mut u64,
    sent: &mut u64,
    told: &mut Clients,
) -> u32
    ensures goes_on { StationGoesOn remote.old.station remote.new.station }
    ensures same { SameSession session.old session.new }
    ensures does { DoTells result command count.old count.new sent.new told.new.words remote.old.station
        remote.new.station session.old session.new }
    ensures carried { CarriesNone remote.old remote.new }
    ensures right { result ≡ WRONG_HANDLE → ⊥ }
{
    match may_do(session, command) {
        Ok(command) => report(obey_on(remote, session, command, told), count, sent),
        Err(code) => {
            told.clear();
            *sent = 0;
            code
        }
    }
}

// The same at a node in a process of its own.
#[tactic(auto, using(lt_live::proofs::Marking::adds_alone))]
fn obey_on(
    remote: &mut Remote,
    session: &mut Session,
    command: Command,
    told: &mut Clients,
) -> ObeyReport
    requires left { 0 < session.old.left }
    requires may { MaySubmit session.old command }
    ensures obeys { Obeys result.obeyed command session.old session.new remote.old.station remote.new.station }
    ensures place { 0 < free_places session.old → result.obeyed ≢ ends.Refused }
    ensures sent { TellsGiven result.sent remote.old.station.runner.mail remote.new.station.runner.mail }
    ensures told { TellsClients told.new remote.old.station.seats remote.new.station.seats }
    ensures goes_on { StationGoesOn remote.old.station remote.new.station }
    ensures same { SameSession session.old session.new }
    ensures carried { CarriesNone remote.old remote.new }
{
    told.clear();
    remote.obey(session, command, &Open, told)
}

// The command, if the session may submit it, or the code of why not.
fn may_do(session: &Session, command: Option<Command>) -> Result<Command, u32>
    ensures given { IfOk result (λ given. (command ≡ Some given)
        × (MaySubmit session.now given × (0 < session.now.left))) }
    ensures refused { IfErr result (λ code. MayNotDo code command session.now) }
{
    let Some(command) = command else {
        return Err(BAD_ARGUMENT);
    };
    if !session.may_submit(command) {
        return Err(BAD_ARGUMENT);
    }
    if session.left() == 0 {
        return Err(SPENT);
    }
    Ok(command)
}

// Tells how the command ended, and which nodes the turns reached.
fn report(done: ObeyReport, count: &mut u64, sent: &mut u64) -> u32
    ensures code { result ≡ number_of_obeyed done.obeyed }
    ensures count { count.new ≡ count_of_obeyed done.obeyed count.old }
    ensures sent { sent.new ≡ done.sent }
{
    *sent = done.sent;
    match done.obeyed {
        Obeyed::Refused => FULL,
        Obeyed::Told(reply) => number_of_reply(reply, count),
        Obeyed::Waits => NOTHING,
        Obeyed::Full => LOG_FULL,
        Obeyed::NoMemory => NO_MEMORY,
    }
}
