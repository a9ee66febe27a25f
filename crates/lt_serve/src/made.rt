ghost use Rattle.std.specs.Prelude.{◌≡◌, ◌⊎◌, ℕ, Option, Some, List};
ghost use Rattle.lt_call.specs.Outcomes.{SaysOfSink, WritesNothing, IsEnding};
ghost use Rattle.lt_words.specs.declared.command.Command.{Command as AnyCommand};
ghost use Rattle.lt_serve.specs.Status.{outcome_of};
ghost use Rattle.lt_serve.specs.TopCall.{JournalsBy, DidOf, WroteByFewest, StoppedByFewest};

use crate::serving::{Served, Setup};
use crate::status::Status;
use lt_io::{Sink, write_all};
use lt_merge::Run;

/// What a command came to before anything is written: how it ended, its run, and its whole text.
#[derive(Drop)]
pub struct Made {
    pub ending: Status,
    pub run: Run,
    pub text: Vec<u8>,
}

/// Writes the text.
pub(crate) fn write_made<K: Sink>(sink: &mut K, setup: Setup, made: Made) -> Served
    requires ended { IsEnding (outcome_of made.ending) }
    ensures did { (moves : ℕ) → (command : AnyCommand) → (left : Option (List ℕ))
        → JournalsBy moves command made.ending left made.run.entries made.text.items
        → DidOf moves command result.status left result.run.entries (K.held sink.old) (K.held sink.new) }
    ensures few { (moves : ℕ) → (command : AnyCommand) → (left : Option (List ℕ))
        → JournalsBy moves command made.ending left made.run.entries made.text.items
        → IsEnding (outcome_of result.status)
        → WroteByFewest moves (Some command) result.status left result.run.entries
        (K.held sink.old) (K.held sink.new) (K.pace sink.old) (K.pace sink.new) }
    ensures few_failed { (moves : ℕ) → (command : AnyCommand) → (left : Option (List ℕ))
        → JournalsBy moves command made.ending left made.run.entries made.text.items
        → result.status ≡ Status.WriteFault
        → StoppedByFewest moves (Some command) left result.run.entries
        (K.held sink.old) (K.held sink.new) (K.pace sink.old) (K.pace sink.new) }
    ensures written { IsEnding (outcome_of result.status) ⊎ (result.status ≡ Status.WriteFault) }
    ensures writing { SaysOfSink (outcome_of result.status) (K.faults sink.old) (K.faults sink.new) }
    ensures unwritten { WritesNothing (outcome_of result.status) → sink.new ≡ sink.old }
    ensures setup { result.setup ≡ setup }
{
    let status = match write_all(sink, &made.text) {
        Ok(()) => made.ending,
        Err(_) => Status::WriteFault,
    };
    Served {
        status,
        run: made.run,
        setup,
    }
}
