// The calls on stations and on sessions.
ghost use Rattle.std.specs.Prelude.{◌≡◌, IsSome};
ghost use Rattle.lt_live_c.specs.Taking.{HandleGoesOn, AtStation, AtSession};
ghost use Rattle.lt_live_c.specs.Forgetting.{ForgetsStation};
ghost use Rattle.lt_live_c.specs.Calls.{TurnsStation, Submits, Polls, left_at, client_in, home_in, HandleTellsSet, command_numbered as the_command};

use crate::boxes::take;
use crate::calls;
use crate::code::{WRONG_HANDLE, command_numbered};
use crate::handle::Handle;
use std::alloc::Global;

/// Lets a station make a turn.
#[unsafe(no_mangle)]
pub extern "C" fn lockrun_turn(alloc: Global, station: &mut Handle) -> u32
    ensures some { IsSome station.old.value → IsSome station.new.value }
    ensures goes_on { HandleGoesOn station.old.value station.new.value }
    ensures turns { AtStation result (TurnsStation result) station.old.value station.new.value }
{
    let Some(mut inside) = take(alloc, station) else {
        return WRONG_HANDLE;
    };
    let code = calls::turn(&mut inside);
    *station = Handle::of(inside);
    code
}

/// Lets a station forget the moves that it made and the commands that were appended, but for those still to be made.
/// Without memory what was forgotten until then stays so.
#[unsafe(no_mangle)]
pub extern "C" fn lockrun_forget(alloc: Global, station: &mut Handle) -> u32
    ensures some { IsSome station.old.value → IsSome station.new.value }
    ensures goes_on { HandleGoesOn station.old.value station.new.value }
    ensures forgets { AtStation result (ForgetsStation result) station.old.value station.new.value }
{
    let Some(mut inside) = take(alloc, station) else {
        return WRONG_HANDLE;
    };
    let code = calls::forget(&mut inside, alloc);
    *station = Handle::of(inside);
    code
}

/// Submits the command of these numbers.
#[unsafe(no_mangle)]
pub extern "C" fn lockrun_submit(
    alloc: Global,
    session: &mut Handle,
    kind: u32,
    set: u32,
    first: u32,
    second: u32,
) -> u32
    ensures some { IsSome session.old.value → IsSome session.new.value }
    ensures goes_on { HandleGoesOn session.old.value session.new.value }
    ensures submits { AtSession result (Submits result (the_command kind set first second)) session.old.value
        session.new.value }
{
    let command = command_numbered(kind, set, first, second);
    let Some(mut inside) = take(alloc, session) else {
        return WRONG_HANDLE;
    };
    let code = calls::submit(&mut inside, command);
    *session = Handle::of(inside);
    code
}

/// Polls for the next reply.
#[unsafe(no_mangle)]
pub extern "C" fn lockrun_poll(alloc: Global, session: &mut Handle, count: &mut u64) -> u32
    ensures some { IsSome session.old.value → IsSome session.new.value }
    ensures goes_on { HandleGoesOn session.old.value session.new.value }
    ensures polls { AtSession result (Polls result count.old count.new) session.old.value session.new.value }
{
    let Some(mut inside) = take(alloc, session) else {
        return WRONG_HANDLE;
    };
    let code = calls::poll(&mut inside, count);
    *session = Handle::of(inside);
    code
}

/// Tells the number of the set with this name.
#[unsafe(no_mangle)]
pub extern "C" fn lockrun_set(
    alloc: Global,
    session: &mut Handle,
    name: &[u8],
    set: &mut u32,
) -> u32
    ensures keeps { session.new.value ≡ session.old.value }
    ensures tells { HandleTellsSet session.old.value name.now result set.old set.new }
{
    let Some(inside) = take(alloc, session) else {
        return WRONG_HANDLE;
    };
    let code = calls::tell_set(&inside, name, set);
    *session = Handle::of(inside);
    code
}

/// How many commands may still be submitted.
#[unsafe(no_mangle)]
pub extern "C" fn lockrun_left(alloc: Global, session: &mut Handle) -> u64
    ensures keeps { session.new.value ≡ session.old.value }
    ensures left { result ≡ left_at session.old.value }
{
    let Some(inside) = take(alloc, session) else {
        return 0;
    };
    let left = calls::left(&inside);
    *session = Handle::of(inside);
    left
}

/// The number of the session's client.
#[unsafe(no_mangle)]
pub extern "C" fn lockrun_client(alloc: Global, session: &mut Handle) -> u32
    ensures keeps { session.new.value ≡ session.old.value }
    ensures client { result ≡ client_in session.old.value }
{
    let Some(inside) = take(alloc, session) else {
        return 0;
    };
    let client = calls::client(&inside);
    *session = Handle::of(inside);
    client
}

/// The node of the session's client.
#[unsafe(no_mangle)]
pub extern "C" fn lockrun_home(alloc: Global, session: &mut Handle) -> u32
    ensures keeps { session.new.value ≡ session.old.value }
    ensures home { result ≡ home_in session.old.value }
{
    let Some(inside) = take(alloc, session) else {
        return 0;
    };
    let home = calls::home(&inside);
    *session = Handle::of(inside);
    home
}
