// Runners that work beside each other.
ghost use Rattle.std.specs.Prelude.{◌≡◌, ◌<◌, ◌++◌, ℕ, length, slice_index_or};
ghost use denote.Param.Send.{IsSync};
ghost use Rattle.lt_runner.specs.declared.parts.Parts.{Parts as RunnerParts};
ghost use Rattle.lt_runner.specs.declared.turning.Worked.TheVariants as answers;
ghost use Rattle.lt_runner.specs.Kept.{Grew};
ghost use Rattle.lt_runner.specs.AtOnce.{AllWorked, worse_of};

use crate::gate::Gate;
use crate::runner::Runner;
use crate::turning::Worked;
use std::thread::{Threads, join_mut};

/// Calls `work` of each runner, on as many threads as there are runners. Where no thread can be made the caller's works.
pub fn all_at_once<R: Threads + Sync, G: Gate>(
    rt: &R,
    runners: &mut [Runner],
    patience: u32,
    gate: &G,
) -> Worked
    ensures grew { (k : ℕ) (other : RunnerParts) → k < length runners.old
        → Grew (slice_index_or runners.old k other) (slice_index_or runners.new k other) }
    ensures ends { AllWorked result patience runners.old runners.new }
    ensures at_once { patience ≡ 0 → (result ≡ answers.Idle) × (runners.new ≡ runners.old) }
{
    work_all(rt, patience, gate, runners)
}

#[cycle(halves)]
fn work_all<R: Threads + Sync, G: Gate>(
    rt: &R,
    patience: u32,
    gate: &G,
    runners: &mut [Runner],
) -> Worked
    ensures { AllWorked result patience runners.old runners.new }
{
    let count = runners.len();
    if count == 0 {
        return Worked::Idle;
    }
    if count == 1 {
        return runners[0].work(patience, gate);
    }
    let (front, back) = runners.split_at_mut(count / 2);
    work_both(rt, patience, gate, front, back)
}

// Each half on a thread of its own.
#[cycle(halves)]
fn work_both<R: Threads + Sync, G: Gate>(
    rt: &R,
    patience: u32,
    gate: &G,
    front: &mut [Runner],
    back: &mut [Runner],
) -> Worked
    requires some { (0 < length front.old) × (0 < length back.old) }
    ensures { AllWorked result patience (front.old ++ back.old) (front.new ++ back.new) }
{
    let mut low = || -> Worked
        requires { IsSync R.row × IsSync G.row }
        ensures { AllWorked result patience front.entry.now front.exit.now }
    { work_all(rt, patience, gate, front) };
    let mut high = || -> Worked
        requires { IsSync R.row × IsSync G.row }
        ensures { AllWorked result patience back.entry.now back.exit.now }
    { work_all(rt, patience, gate, back) };
    let (first, second) = join_mut(rt, &mut low, &mut high);
    worse_of(first, second)
}

fn worse_of(first: Worked, second: Worked) -> Worked
    ensures { result ≡ worse_of first second }
{
    match (first, second) {
        (Worked::NoMemory, _) | (_, Worked::NoMemory) => Worked::NoMemory,
        (Worked::Full, _) | (_, Worked::Full) => Worked::Full,
        _ => Worked::Idle,
    }
}
