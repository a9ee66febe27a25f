use crate::gates::{Passes, TIMES};
use crate::running::called;
use crate::telling::{holds, same};
use lt_runner::Gate;
use lt_serve::{Setup, Status};
use lt_spec::MAX_MOVES;
use std::alloc::Global;
use std::process::Abort;
use std::thread::Threads;

// The desk is at node 0. The lock goes to the client whose ask node 0 takes first.
const TWO_ASK: &str = "nodes 3\n\
set s\n\
client e at 0\n\
client b at 1\n\
client c at 2\n\
e unlock s read\n\
b lock s write\n\
c lock s write\n";

const B_HOLDS: &[u8] = b"held b s write 1\n\
waiting c s write\n\
owner s 1 1\n\
end 7\n";

const C_HOLDS: &[u8] = b"held c s write 1\n\
waiting b s write\n\
owner s 2 1\n\
end 7\n";

// Node 0 makes its first move once the early node has come to its own; the late node makes its first move once node 0
// has come to its second one, by which it has the early node's ask in hand. The early node makes its first move once
// the late one has come to its own: so the worker that sends the early node's ask is not the one that waits at the late
// node, and goes on to node 0 with it.
#[derive(Drop)]
struct Order {
    passes: Passes,
    // Whether node 1 is the early one, and node 2 the late one; else they are so the other way round.
    in_order: bool,
}

impl Order {
    ghost use Rattle.std.specs.Prelude.{◌<◌};

    fn early(&self) -> usize
        ensures { result < 3 }
    {
        if self.in_order { 1 } else { 2 }
    }

    fn late(&self) -> usize
        ensures { result < 3 }
    {
        if self.in_order { 2 } else { 1 }
    }
}

impl Gate for Order {
    fn pass(&self, node: u8) {
        let me = usize::from(node);
        if me < 3 && self.passes.is_first(me) {
            if me == 0 {
                self.passes.wait(me, self.early(), 1);
            } else if me == self.early() {
                self.passes.wait(me, self.late(), 1);
            } else {
                self.passes.wait(me, 0, 2);
            }
        }
    }
}

// By this patience a worker with a letter for node 0 doesn't end while another one has that node.
const SETUP: Setup = Setup {
    moves: MAX_MOVES,
    capacity: 64,
    patience: u32::MAX,
    workers: 3,
};

// The lock goes to the client of the early node.
fn goes_to<R: Abort + Threads + Sync>(
    rt: &R,
    alloc: Global,
    number: u64,
    in_order: bool,
    closing: &[u8],
) {
    let gate = Order {
        passes: Passes::new(number),
        in_order,
    };
    let (served, sink) = called(rt, alloc, SETUP, &["run"], TWO_ASK, &gate);
    same(rt, served.status, Status::Stuck);
    holds(rt, gate.passes.has_met(0));
    holds(rt, gate.passes.has_met(1));
    holds(rt, gate.passes.has_met(2));
    holds(rt, sink.bytes.as_slice().ends_with(closing));
}

// The run written is the one that the threads made: the gates alone decide who gets the lock.
#[test]
fn gates_decide_who_gets_the_lock(rt: HostRuntime) {
    for number in 0..TIMES {
        goes_to(&rt, rt.alloc(), number, true, B_HOLDS);
        goes_to(&rt, rt.alloc(), number, false, C_HOLDS);
    }
}
