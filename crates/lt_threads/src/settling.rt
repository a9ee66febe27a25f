// What the caller does itself when the workers have ended.
ghost use Rattle.std.specs.Prelude.{◌≡◌, ◌≢◌, ◌<◌, ℕ, true, false, Some, length, slice_get};
ghost use Rattle.lt_runner.specs.Kept.{Grew, CouldMove};
ghost use Rattle.lt_runner.specs.declared.parts.Parts.{Parts as RunnerParts};
ghost use Rattle.lt_threads.specs.Meeting.{EachIs, SomeCouldMove};
ghost use Rattle.lt_threads.specs.Settled.{IsSettledRunner, AreSettled, CrewWorked, some_full};

use lt_runner::{Gate, Runner, Worked};

/// Lets each runner work whose log isn't full, and tells how the crew ended.
pub(crate) fn settle<G: Gate>(runners: &mut Vec<Runner>, patience: u32, gate: &G) -> Worked
    ensures grew { EachIs Grew runners.old.items runners.new.items }
    ensures ends { CrewWorked result patience runners.new.items }
{
    if settle_all(runners, patience, gate) {
        return Worked::NoMemory;
    }
    if some_full(runners) {
        Worked::Full
    } else {
        Worked::Idle
    }
}

// Whether the log of some runner is full.
fn some_full(runners: &[Runner]) -> bool
    ensures { result ≡ some_full runners.now }
{
    runners.iter().any(|runner| runner.is_full())
}

// True where memory was wanting for a move.
fn settle_all<G: Gate>(runners: &mut Vec<Runner>, patience: u32, gate: &G) -> bool
    ensures grew { EachIs Grew runners.old.items runners.new.items }
    ensures settled { result ≡ false → AreSettled patience runners.new.items }
    ensures short { result ≡ true → SomeCouldMove runners.new.items }
{
    for place in 0..runners.len() {
        if settle_at(runners, place, patience, gate) {
            return true;
        }
    }
    false
}

fn settle_at<G: Gate>(runners: &mut Vec<Runner>, place: usize, patience: u32, gate: &G) -> bool
    requires { place < length runners.old.items }
    ensures grew { EachIs Grew runners.old.items runners.new.items }
    ensures others { (k : ℕ) → k ≢ place → slice_get runners.new.items k ≡ slice_get runners.old.items k }
    ensures settled { (p : RunnerParts) → result ≡ false → slice_get runners.new.items place ≡ Some p → IsSettledRunner patience p }
    ensures short { result ≡ true → SomeCouldMove runners.new.items }
{
    settle_one(&mut runners[place], patience, gate)
}

fn settle_one<G: Gate>(runner: &mut Runner, patience: u32, gate: &G) -> bool
    ensures grew { Grew runner.old runner.new }
    ensures settled { result ≡ false → IsSettledRunner patience runner.new }
    ensures short { result ≡ true → CouldMove runner.new }
{
    if patience == 0 || runner.is_full() {
        return false;
    }
    matches!(runner.work(1, gate), Worked::NoMemory)
}
