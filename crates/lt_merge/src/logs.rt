ghost use Rattle.std.specs.Prelude.{◌≡◌, ◌<◌, [], ◌++◌, length, take, slice_get, IfOk, OnOk};
ghost use Rattle.lt_merge.specs.Merging.{AreLogs, Merges};
ghost use Rattle.lt_merge.specs.Heads.{Begins, entries_in, rest_of};

use crate::heads::{Head, advance, heads_of};
use crate::run::{Log, Run};
use std::alloc::{AllocError, Global};

/// The moves of all logs, in order of their stamps. Without memory the logs are dropped; 2^32 moves or more are refused
/// as memory is.
pub fn merge(alloc: Global, logs: Vec<Log>) -> Result<Run, AllocError>
    requires logs { AreLogs logs.items }
    ensures { IfOk result (λ run. Merges logs.items run.entries) }
{
    let run = Run::for_all(alloc, &logs)?;
    let heads = heads_of(alloc, &logs)?;
    merge_heads(&logs, heads, run)
}

// Takes the first head's move until there are no more.
fn merge_heads(logs: &[Log], mut heads: Vec<Head>, mut run: Run) -> Result<Run, AllocError>
    requires heads { Begins logs.now 0 heads.items }
    requires empty { run.entries ≡ [] }
    ensures { IfOk result (λ run. Merges logs.now run.entries) }
{
    while !heads.is_empty() {
        let head = heads[0];
        take_move(logs, head, &mut run)?;
        advance(logs, head, &mut heads);
    }
    Ok(run)
}

// Adds the head's move to the run.
fn take_move(logs: &[Log], head: Head, run: &mut Run) -> Result<(), AllocError>
    requires log { head.log < length logs.now }
    requires place { head.place < length (entries_in (slice_get logs.now head.log)) }
    ensures { OnOk result (run.new.entries ≡ run.old.entries ++ take 1 (rest_of logs.now head)) }
{
    run.copy_move(&logs[head.log], head.place)
}
