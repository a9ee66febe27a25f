// Before its first move each of two nodes waits until the other one comes to its own.
use crate::gates::{Passes, TIMES};
use crate::running::{called, sink_of, source_of};
use crate::telling::{holds, same};
use lt_merge::Run;
use lt_runner::Gate;
use lt_serve::USUAL;
use std::process::Abort;

const TWO_IN_TURN: &str = "nodes 2\n\
set s\n\
client a at 0\n\
client b at 1\n\
a lock s write\n\
a unlock s write\n\
b lock s write\n\
b unlock s write\n";

#[derive(Drop)]
struct Meeting {
    passes: Passes,
}

impl Gate for Meeting {
    fn pass(&self, node: u8) {
        let me = usize::from(node);
        if me < 2 && self.passes.is_first(me) {
            self.passes.wait(me, 1 - me, 1);
        }
    }
}

fn moves_of(run: &Run, node: u8) -> u64 {
    let mut count: u64 = 0;
    for k in 0..run.len() {
        if run.made(k).stamp.node == node {
            count = count.saturating_add(1);
        }
    }
    count
}

// Both have met, and each passed its gate before each of its moves.
fn have_met<R: Abort>(rt: &R, gate: &Meeting, run: &Run) {
    holds(rt, gate.passes.has_met(0));
    holds(rt, gate.passes.has_met(1));
    same(rt, gate.passes.count(0), moves_of(run, 0));
    same(rt, gate.passes.count(1), moves_of(run, 1));
}

#[test]
fn two_nodes_move_at_once(rt: HostRuntime) {
    for number in 0..TIMES {
        let gate = Meeting {
            passes: Passes::new(number),
        };
        let (served, _sink) = called(&rt, rt.alloc(), USUAL, &["run"], TWO_IN_TURN, &gate);
        same(&rt, served.status, lt_serve::Status::Done);
        have_met(&rt, &gate, &served.run);
    }
}

#[test]
fn two_stations_move_at_once(rt: HostRuntime) {
    let gate = Meeting {
        passes: Passes::new(0),
    };
    let mut source = source_of(&rt, rt.alloc(), TWO_IN_TURN, 0);
    let mut sink = sink_of(&rt, rt.alloc(), 10, 0);
    let served = lt_live_serve::serve(&rt, rt.alloc(), &[], &mut source, &mut sink, &gate);
    same(&rt, served.status, lt_live_serve::Status::Done);
    have_met(&rt, &gate, &served.run);
}
