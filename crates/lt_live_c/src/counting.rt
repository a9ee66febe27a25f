// The call that counts what the lines of a station's moves say of each set.
ghost use Rattle.std.specs.Prelude.{◌≡◌, ◌<◌, Some};
ghost use Rattle.lt_live_c.specs.Counting.{log_behind, log_seen, as_counted, TellsCounts};

use crate::boxes::take;
use crate::code::{BAD_ARGUMENT, FORGOTTEN, OK, WRONG_HANDLE};
use crate::content::Content;
use crate::handle::Handle;
use lt_counts::count_on;
use lt_log::LongLog;
use std::alloc::Global;

/// Counts what the lines of the moves of a station's node, from place `read` on, say of each set, and the letters that
/// these moves take; `read` is then the place of the next move.
#[unsafe(no_mangle)]
pub extern "C" fn lockrun_count(
    alloc: Global,
    station: &mut Handle,
    read: &mut u64,
    taken: &mut u64,
    counts: &mut [u64],
) -> u32
    ensures keeps { station.new.value ≡ station.old.value }
    ensures tells { TellsCounts (log_behind station.old.value) result (as_counted read.old taken.old counts.old)
        (as_counted read.new taken.new counts.new) }
{
    let Some(inside) = take(alloc, station) else {
        return WRONG_HANDLE;
    };
    let code = count(&inside, read, taken, counts);
    *station = Handle::of(inside);
    code
}

fn count(content: &Content, read: &mut u64, taken: &mut u64, counts: &mut [u64]) -> u32
    ensures { TellsCounts (log_seen content.now) result (as_counted read.old taken.old counts.old)
        (as_counted read.new taken.new counts.new) }
{
    match content {
        Content::Station(station) => count_moves(station.log(), read, taken, counts),
        Content::Node(node) => count_moves(node.remote.station().log(), read, taken, counts),
        _ => WRONG_HANDLE,
    }
}

fn count_moves(log: &LongLog, read: &mut u64, taken: &mut u64, counts: &mut [u64]) -> u32
    ensures { TellsCounts (Some log.now) result (as_counted read.old taken.old counts.old)
        (as_counted read.new taken.new counts.new) }
{
    let from = *read;
    if from < log.forgotten() {
        return FORGOTTEN;
    }
    if log.len() < from {
        return BAD_ARGUMENT;
    }
    count_on(log, from, taken, counts);
    *read = log.len();
    OK
}
