// How many workers find room for their stacks.
ghost use Rattle.std.specs.Prelude.{◌<◌, ◌≤◌};

use std::alloc::Global;

// What the stack of a thread takes of the address space where nothing else is set.
const STACK: usize = 8 << 20;

// What a run may want beside the stacks.
const RUN_ROOM: usize = 32 << 20;

/// As many of the workers as have room for their stacks beside what the run may want; at least one, which works on the
/// caller's thread.
pub(crate) fn workers_with_room(alloc: Global, workers: u8) -> u8
    requires { 0 < workers }
    ensures some { 0 < result }
    ensures most { result ≤ workers }
{
    for threads in (1..workers).rev() {
        if have_room(alloc, threads) {
            return threads + 1;
        }
    }
    1
}

// Whether so many threads have. The block is given back at once, and never touched, so it costs address space alone.
fn have_room(alloc: Global, threads: u8) -> bool {
    Vec::<u8>::with_capacity(alloc, RUN_ROOM + usize::from(threads) * STACK).is_ok()
}
