// The calls that tell what clients hold and wait for.
ghost use Rattle.std.specs.Prelude.{◌≡◌};
ghost use Rattle.lt_live_c.specs.Calls.{mode_numbered};
ghost use Rattle.lt_live_c.specs.Viewing.{node_behind, TellsHeld, locks_seen, TellsAsked, tells_behind};

use crate::boxes::take;
use crate::code::WRONG_HANDLE;
use crate::handle::Handle;
use crate::views;
use std::alloc::Global;

/// Tells the first set, from this one on, in which the client holds a lock at the station's node.
#[unsafe(no_mangle)]
pub extern "C" fn lockrun_held(
    alloc: Global,
    station: &mut Handle,
    client: u32,
    from: u32,
    set: &mut u32,
) -> u32
    ensures keeps { station.new.value ≡ station.old.value }
    ensures tells { TellsHeld (node_behind station.old.value) client from result set.old set.new }
{
    let Some(inside) = take(alloc, station) else {
        return WRONG_HANDLE;
    };
    let code = views::held(&inside, client, from, set);
    *station = Handle::of(inside);
    code
}

/// How many locks of the mode the client holds in the set at the station's node.
#[unsafe(no_mangle)]
pub extern "C" fn lockrun_locks(
    alloc: Global,
    station: &mut Handle,
    client: u32,
    set: u32,
    mode: u32,
) -> u64
    ensures keeps { station.new.value ≡ station.old.value }
    ensures count { result ≡ locks_seen (node_behind station.old.value) client set (mode_numbered mode) }
{
    let Some(inside) = take(alloc, station) else {
        return 0;
    };
    let count = views::locks(&inside, client, set, mode);
    *station = Handle::of(inside);
    count
}

/// Tells the set in which the client waits at the station's node, and the mode that it waits for.
#[unsafe(no_mangle)]
pub extern "C" fn lockrun_asked(
    alloc: Global,
    station: &mut Handle,
    client: u32,
    set: &mut u32,
    mode: &mut u32,
) -> u32
    ensures keeps { station.new.value ≡ station.old.value }
    ensures tells { TellsAsked (node_behind station.old.value) client result set.old mode.old set.new mode.new }
{
    let Some(inside) = take(alloc, station) else {
        return WRONG_HANDLE;
    };
    let code = views::asked(&inside, client, set, mode);
    *station = Handle::of(inside);
    code
}

/// Whether in the queue of the set's desk, if that is at the station's node, an ask of the client stands behind one of
/// the other.
#[unsafe(no_mangle)]
pub extern "C" fn lockrun_behind(
    alloc: Global,
    station: &mut Handle,
    set: u32,
    client: u32,
    other: u32,
) -> u32
    ensures keeps { station.new.value ≡ station.old.value }
    ensures tells { result ≡ tells_behind (node_behind station.old.value) set client other }
{
    let Some(inside) = take(alloc, station) else {
        return WRONG_HANDLE;
    };
    let code = views::behind(&inside, set, client, other);
    *station = Handle::of(inside);
    code
}
