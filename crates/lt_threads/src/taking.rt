// A visit for letters alone.
ghost use Rattle.std.specs.Prelude.{◌≡◌, ◌≢◌};
ghost use Rattle.lt_runner.specs.declared.choice.Choice.TheVariants as choices;
ghost use Rattle.lt_runner.specs.declared.turning.Turned.TheVariants as turns;
ghost use Rattle.lt_runner.specs.declared.turning.Worked.TheVariants as answers;
ghost use Rattle.lt_runner.specs.Choices.{next_choice};
ghost use Rattle.lt_runner.specs.Kept.{CouldMove, Grew, IsFlushed, WorkEnds};
ghost use Rattle.lt_threads.specs.Taking.{TakeEnds};

use lt_runner::{Choice, Found, Gate, Runner, Turned, Worked};

/// Lets the runner take letters until it finds none, or the log is full, or memory for the next one is wanting.
///
/// It ends, since each letter that is taken is a move for which the log has a place left.
#[tactic(auto, using(crate::proofs::Taken::less_room))]
pub(crate) fn take_letters<G: Gate>(runner: &mut Runner, gate: &G) -> Worked
    ensures grew { Grew runner.old runner.new }
    ensures ends { WorkEnds result 0 runner.new }
    ensures flushed { result ≡ answers.Idle → IsFlushed runner.new }
{
    'letters: loop {
        match turn_by_mail(runner, gate) {
            Turned::Moved => {}
            Turned::Quiet => return Worked::Idle,
            Turned::Full => return Worked::Full,
            Turned::NoMemory => return Worked::NoMemory,
        }
    }
}

#[tactic(auto, using(crate::proofs::Taken::taking))]
fn turn_by_mail<G: Gate>(runner: &mut Runner, gate: &G) -> Turned
    ensures grew { Grew runner.old runner.new }
    ensures ends { TakeEnds result runner.old runner.new }
    ensures flushed { result ≡ turns.Quiet → IsFlushed runner.new }
{
    match runner.find() {
        Found::Move(Choice::Take) => take_in_hand(runner, gate),
        Found::Move(_) | Found::Quiet => Turned::Quiet,
        Found::Full => Turned::Full,
    }
}

fn take_in_hand<G: Gate>(runner: &mut Runner, gate: &G) -> Turned
    requires chosen { next_choice runner.old ≡ choices.Take }
    requires could { CouldMove runner.old }
    ensures grew { Grew runner.old runner.new }
    ensures ends { TakeEnds result runner.old runner.new }
    ensures tried { result ≢ turns.Quiet }
{
    if runner.reserve(Choice::Take).is_err() {
        return Turned::NoMemory;
    }
    gate.pass(runner.me());
    runner.make(Choice::Take);
    Turned::Moved
}
