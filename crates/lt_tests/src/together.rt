// What several of these tests stand on.
use crate::telling::holds;
use lt_runner::Gate;
use lt_script::{Script, read};
use std::alloc::Global;
use std::process::Abort;
use std::sync::atomic::{AtomicU64, Ordering};

/// The script of this text.
pub(crate) fn read_text<R: Abort>(rt: &R, alloc: Global, text: &str) -> Script {
    holds(rt, text.len() <= 65_536);
    read(alloc, text.as_bytes()).expect(rt, "a script")
}

/// A gate that counts the moves.
#[derive(Drop)]
pub(crate) struct Counter {
    passes: AtomicU64,
}

impl Counter {
    pub(crate) fn new() -> Counter {
        Counter {
            passes: AtomicU64::new(0),
        }
    }

    pub(crate) fn count(&self) -> u64 {
        self.passes.load(Ordering::SeqCst)
    }
}

impl Gate for Counter {
    fn pass(&self, _node: u8) {
        self.passes.fetch_add(1, Ordering::SeqCst);
    }
}
