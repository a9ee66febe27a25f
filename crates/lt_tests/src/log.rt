use crate::telling::{holds, same};
use lt_log::LongLog;
use lt_modes::{Move, Stamp, Step};
use std::process::Abort;

// Adds a move of node 0 with this clock.
fn add<R: Abort>(rt: &R, log: &mut LongLog, clock: u64) {
    log.reserve(0).expect(rt, "memory");
    holds(rt, log.len() < 10);
    let stamp = Stamp { clock, node: 0 };
    log.push(Move {
        stamp,
        step: Step::Act(0),
    });
}

// The move at place `k` is kept, and has this clock.
fn has_made<R: Abort>(rt: &R, log: &LongLog, k: u64, clock: u64) {
    holds(rt, log.forgotten() <= k);
    holds(rt, k < log.len());
    same(rt, log.made(k).stamp.clock, clock);
}

#[test]
fn a_log_tells_the_moves_that_it_keeps(rt: HostRuntime) {
    let mut log = LongLog::new(rt.alloc());
    add(&rt, &mut log, 3);
    add(&rt, &mut log, 5);
    has_made(&rt, &log, 1, 5);
    log.forget();
    add(&rt, &mut log, 8);
    add(&rt, &mut log, 9);
    has_made(&rt, &log, 2, 8);
    has_made(&rt, &log, 3, 9);
}
