// What a program's words come to, with sources and sinks in memory.
ghost use Rattle.std.specs.Prelude.{◌<◌, ◌≤◌};
ghost use Rattle.lt_spec.specs.declared.moves.TheConstants.{MAX_MOVES};
ghost use Rattle.lt_mail.specs.declared.opening.TheConstants.{MAX_CAPACITY};
ghost use Rattle.lt_threads.specs.declared.sharing.TheConstants.{MAX_WORKERS};

use lt_io::{MemorySink, MemorySource};
use lt_runner::Gate;
use lt_serve::{Served, Setup, serve_with};
use std::alloc::Global;
use std::process::Abort;
use std::thread::Threads;

/// A source whose read of this number fails; the first one is 1.
pub(crate) fn source_of<R: Abort>(rt: &R, alloc: Global, text: &str, fails: u64) -> MemorySource {
    MemorySource {
        bytes: Vec::from_slice(alloc, text.as_bytes()).expect(rt, "memory"),
        at: 0,
        calls: 0,
        fails: Vec::from_slice(alloc, &[fails]).expect(rt, "memory"),
        given: 0,
        faults: 0,
        ends: 0,
    }
}

/// A sink that takes so many bytes at a time, and whose write of this number fails; the first one is 1.
pub(crate) fn sink_of<R: Abort>(rt: &R, alloc: Global, per_write: usize, fails: u64) -> MemorySink {
    MemorySink {
        bytes: Vec::new(alloc),
        per_write,
        calls: 0,
        fails: Vec::from_slice(alloc, &[fails]).expect(rt, "memory"),
        faults: 0,
    }
}

/// Does what these words say.
pub(crate) fn call<R: Abort + Threads + Sync, G: Gate>(
    rt: &R,
    alloc: Global,
    setup: Setup,
    words: &[&str],
    source: &mut MemorySource,
    sink: &mut MemorySink,
    gate: &G,
) -> Served
    requires moves { (0 < setup.moves) × (setup.moves ≤ MAX_MOVES) }
    requires capacity { (0 < setup.capacity) × (setup.capacity ≤ MAX_CAPACITY) }
    requires workers { (0 < setup.workers) × (setup.workers ≤ MAX_WORKERS) }
{
    let mut given = Vec::new(alloc);
    for word in words {
        let word = String::from_str(alloc, word).expect(rt, "memory");
        given.push(word).expect(rt, "memory");
    }
    serve_with(rt, alloc, setup, given.as_slice(), source, sink, gate)
}

/// Does what these words say of this text, and returns the sink too. No read and no write fails.
pub(crate) fn called<R: Abort + Threads + Sync, G: Gate>(
    rt: &R,
    alloc: Global,
    setup: Setup,
    words: &[&str],
    text: &str,
    gate: &G,
) -> (Served, MemorySink)
    requires moves { (0 < setup.moves) × (setup.moves ≤ MAX_MOVES) }
    requires capacity { (0 < setup.capacity) × (setup.capacity ≤ MAX_CAPACITY) }
    requires workers { (0 < setup.workers) × (setup.workers ≤ MAX_WORKERS) }
{
    let mut source = source_of(rt, alloc, text, 0);
    let mut sink = sink_of(rt, alloc, 10, 0);
    let served = call(rt, alloc, setup, words, &mut source, &mut sink, gate);
    (served, sink)
}
