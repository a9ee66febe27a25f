// What the gates of tests do: a thread waits at its node's gate for other nodes.
ghost use Rattle.std.specs.Prelude.{◌<◌};

use std::sync::atomic::{AtomicU64, Ordering};

/// How often each test of a gate makes its run; tests/hand/gates.sh makes more.
pub(crate) const TIMES: u64 = 1;

// Each pass of a gate idles for fewer turns than this first; tests/hand/gates.sh idles longer.
const IDLE: u64 = 1;

// For how many turns a thread waits at most: hours, so that a busy machine ends no wait.
const TURNS: u64 = 1 << 44;

/// How often each of three nodes came to its gate, and whether it met the one that it waited for.
#[derive(Drop)]
pub(crate) struct Passes {
    run: u64,
    counts: [AtomicU64; 3],
    met: [AtomicU64; 3],
}

impl Passes {
    pub(crate) fn new(run: u64) -> Passes {
        Passes {
            run,
            counts: [AtomicU64::new(0), AtomicU64::new(0), AtomicU64::new(0)],
            met: [AtomicU64::new(0), AtomicU64::new(0), AtomicU64::new(0)],
        }
    }

    /// Notes that the node came to its gate. True if it hasn't come before.
    pub(crate) fn is_first(&self, node: usize) -> bool
        requires { node < 3 }
    {
        let before = self.counts[node].fetch_add(1, Ordering::SeqCst);
        idle(self.run.wrapping_mul(8).wrapping_add(before));
        before == 0
    }

    /// Waits until another node has come to its gate so often.
    pub(crate) fn wait(&self, node: usize, other: usize, passes: u64)
        requires { (node < 3) × (other < 3) }
    {
        for _ in 0..TURNS {
            if passes <= self.counts[other].load(Ordering::SeqCst) {
                self.met[node].store(1, Ordering::SeqCst);
                return;
            }
        }
    }

    pub(crate) fn count(&self, node: usize) -> u64
        requires { node < 3 }
    {
        self.counts[node].load(Ordering::SeqCst)
    }

    /// Whether the node's wait ended before its turns did.
    pub(crate) fn has_met(&self, node: usize) -> bool
        requires { node < 3 }
    {
        self.met[node].load(Ordering::SeqCst) == 1
    }
}

// Idles for some turns, drawn by the number.
fn idle(number: u64) {
    let turns = number.wrapping_mul(0x9e37_79b9_7f4a_7c15) / 65_536 % IDLE;
    let spent = AtomicU64::new(0);
    for _ in 0..turns {
        spent.fetch_add(1, Ordering::SeqCst);
    }
}
