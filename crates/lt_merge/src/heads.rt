ghost use Rattle.std.specs.Prelude.{◌≡◌, ◌∷◌, ◌<◌, length, drop, IfOk};
ghost use Rattle.lt_merge.specs.Merging.{AreLogs};
ghost use Rattle.lt_merge.specs.Heads.{AreHeads, Advances, Begins, IsHeadAt, settled_heads};

use crate::run::Log;
use lt_modes::Stamp;
use std::alloc::{AllocError, Global};

/// The next move of a log: its stamp, the number of the log, and its place there.
#[derive(Clone, Copy, Debug)]
pub(crate) struct Head {
    stamp: Stamp,
    pub(crate) log: usize,
    pub(crate) place: u32,
}

/// The first moves of all logs that have one, in order of their stamps.
pub(crate) fn heads_of(alloc: Global, logs: &[Log]) -> Result<Vec<Head>, AllocError>
    requires { AreLogs logs.now }
    ensures { IfOk result (λ heads. Begins logs.now 0 heads.items) }
{
    let mut heads = Vec::with_capacity(alloc, logs.len())?;
    let mut log = logs.len();
    while log > 0 {
        log -= 1;
        match head_at(logs, log, 0) {
            Some(head) => {
                heads.insert(0, head)?;
                settle(&mut heads);
            }
            None => {}
        }
    }
    Ok(heads)
}

/// Puts the next move of the first head's log into the list in the place of that head, if the log has one more.
pub(crate) fn advance(logs: &[Log], head: Head, heads: &mut Vec<Head>)
    requires heads { AreHeads logs.now heads.old.items }
    requires first { heads.old.items ≡ head ∷ drop 1 heads.old.items }
    ensures { Advances logs.now head heads.old.items heads.new.items }
{
    // The head stands inside its log, whose length has 32 bits.
    let _length = logs[head.log].len();
    match head_at(logs, head.log, head.place + 1) {
        Some(next) => {
            heads[0] = next;
            settle(heads);
        }
        None => {
            heads.remove(0);
        }
    }
}

// The head of the log at this place, if it has a move there.
fn head_at(logs: &[Log], log: usize, place: u32) -> Option<Head>
    requires { log < length logs.now }
    ensures { IsHeadAt logs.now log place result }
{
    let moves = &logs[log];
    if place >= moves.len() {
        return None;
    }
    let stamp = moves.made(place).stamp;
    Some(Head { stamp, log, place })
}

// Brings the first head to its place among the others, which are in order.
fn settle(heads: &mut Vec<Head>)
    ensures { heads.new.items ≡ settled_heads heads.old.items }
{
    let mut k = 1;
    while k < heads.len() {
        let first = heads[k - 1];
        let second = heads[k];
        if !first.stamp.is_newer(second.stamp) {
            return;
        }
        heads[k - 1] = second;
        heads[k] = first;
        k += 1;
    }
}
