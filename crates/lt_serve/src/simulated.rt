ghost use Rattle.std.specs.Prelude.{◌≡◌, ◌<◌, ◌≤◌, IfOk, IfErr, OnOk};
ghost use Rattle.lt_call.specs.Outcomes.{SaysOfSource};
ghost use Rattle.lt_io.specs.Streams.{IsReadWhole, Rose};
ghost use Rattle.lt_spec.specs.Script.{IsScript, IsShort};
ghost use Rattle.lt_journal.specs.RunLines.{text_of};
ghost use Rattle.lt_spec.specs.declared.moves.TheConstants.{MAX_MOVES};
ghost use Rattle.lt_serve.specs.Schedules.{AreInOrder};
ghost use Rattle.lt_serve.specs.Endings.{RanTo, StopsInTime, cut_of};
ghost use Rattle.lt_serve.specs.declared.limits.TheConstants.{MAX_INPUT};
ghost use Rattle.lt_words.specs.declared.command.Command.TheVariants as command;
ghost use Rattle.lt_serve.specs.Causes.{IsRefusal};
ghost use Rattle.lt_serve.specs.Status.{outcome_of};
ghost use Rattle.lt_serve.specs.TopCall.{JournalsInOrder};

use crate::made::Made;
use crate::reading::read_script;
use crate::schedule::Schedule;
use crate::simulation::simulate;
use crate::status::Status;
use lt_io::Source;
use lt_journal::write;
use lt_script::Script;
use std::alloc::{AllocError, Global};

/// The run by this schedule, and its journal.
pub(crate) fn scheduled_journal(
    alloc: Global,
    script: &Script,
    moves: u32,
    schedule: Schedule,
) -> Result<Made, AllocError>
    requires kept { IsScript script.now }
    requires short { IsShort script.now }
    requires moves { (0 < moves) × (moves ≤ MAX_MOVES) }
    ensures ran { IfOk result (λ made. RanTo moves made.ending script.now made.run.entries) }
    ensures in_order { IfOk result (λ made. AreInOrder schedule script.now made.run.entries) }
    ensures in_time { IfOk result (λ made. StopsInTime moves script.now made.run.entries) }
    ensures text { IfOk result (λ made. made.text.items ≡ text_of script.now made.run.entries (cut_of made.ending)) }
{
    let (end, run) = simulate(alloc, script, moves, schedule)?;
    let ending = Status::from(end);
    let text = write(alloc, script, &run, ending.cut())?;
    Ok(Made { ending, run, text })
}

/// Reads a script, and makes its moves by this schedule.
pub(crate) fn simulated<S: Source>(
    alloc: Global,
    moves: u32,
    schedule: Schedule,
    source: &mut S,
) -> Result<Made, Status>
    requires moves { (0 < moves) × (moves ≤ MAX_MOVES) }
    ensures does { IfOk result (λ made. JournalsInOrder schedule moves made.ending (S.state source.old).left made.run.entries made.text.items) }
    ensures whole { OnOk result (IsReadWhole MAX_INPUT (S.state source.old) (S.state source.new)) }
    ensures reading { IfErr result (λ answer. SaysOfSource MAX_INPUT (outcome_of answer) (S.state source.old) (S.state source.new)) }
    ensures refused { IfErr result (IsRefusal command.SimFirst (S.state source.old).left) }
    ensures memory { IfErr result (λ answer. answer ≡ Status.NoMemory
        → Rose (S.state source.old).given (S.state source.new).given) }
{
    let script = read_script(alloc, source)?;
    match scheduled_journal(alloc, &script, moves, schedule) {
        Ok(made) => Ok(made),
        Err(_) => Err(Status::NoMemory),
    }
}
