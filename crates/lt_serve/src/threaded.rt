ghost use Rattle.std.specs.Prelude.{◌≡◌, ◌<◌, ◌≤◌, IfOk, IfErr, OnOk};
ghost use Rattle.lt_call.specs.Outcomes.{SaysOfSource};
ghost use Rattle.lt_io.specs.Streams.{IsReadWhole, Rose};
ghost use Rattle.lt_spec.specs.Script.{IsScript, IsShort};
ghost use Rattle.lt_merge.specs.Merging.{AreRising};
ghost use Rattle.lt_journal.specs.RunLines.{text_of};
ghost use Rattle.lt_spec.specs.declared.moves.TheConstants.{MAX_MOVES};
ghost use Rattle.lt_serve.specs.Endings.{RanTo, cut_of, status_of_end};
ghost use Rattle.lt_mail.specs.declared.opening.TheConstants.{MAX_CAPACITY};
ghost use Rattle.lt_threads.specs.declared.sharing.TheConstants.{MAX_WORKERS};
ghost use Rattle.lt_threads.specs.Threads.{GoesFar};
ghost use Rattle.lt_serve.specs.declared.limits.TheConstants.{MAX_INPUT};
ghost use Rattle.lt_words.specs.declared.command.Command.TheVariants as command;
ghost use Rattle.lt_serve.specs.Causes.{IsRefusal};
ghost use Rattle.lt_serve.specs.Status.{outcome_of};
ghost use Rattle.lt_serve.specs.TopCall.{JournalsBy};

use crate::made::Made;
use crate::reading::read_script;
use crate::serving::Setup;
use crate::status::Status;
use lt_io::Source;
use lt_journal::write;
use lt_law_ordered::law_ordered;
use lt_law_promises::law_promised;
use lt_merge::Run;
use lt_runner::Gate;
use lt_script::Script;
use lt_spec::Ending;
use lt_threads::run_on_threads;
use std::alloc::{AllocError, Global};
use std::thread::Threads;

/// The run of a script on threads, and how it ended.
#[tactic(auto, using(crate::proofs::Answering::ran_to))]
pub(crate) fn run_nodes<R: Threads + Sync, G: Gate>(
    rt: &R,
    alloc: Global,
    script: &Script,
    setup: Setup,
    gate: &G,
) -> Result<(Ending, Run), AllocError>
    requires kept { IsScript script.now }
    requires short { IsShort script.now }
    requires moves { (0 < setup.moves) × (setup.moves ≤ MAX_MOVES) }
    requires capacity { (0 < setup.capacity) × (setup.capacity ≤ MAX_CAPACITY) }
    requires workers { (0 < setup.workers) × (setup.workers ≤ MAX_WORKERS) }
    ensures ran { IfOk result (λ made. RanTo setup.moves (status_of_end made.0) script.now made.1.entries) }
    ensures rising { IfOk result (λ made. AreRising made.1.entries) }
    ensures far { IfOk result (λ made. GoesFar setup.moves script.now made.1.entries) }
{
    law_promised();
    law_ordered();
    run_on_threads(
        rt,
        alloc,
        script,
        setup.capacity,
        setup.moves,
        setup.workers,
        setup.patience,
        gate,
    )
}

/// The run of a script on threads, and its journal.
pub(crate) fn threads_journal<R: Threads + Sync, G: Gate>(
    rt: &R,
    alloc: Global,
    script: &Script,
    setup: Setup,
    gate: &G,
) -> Result<Made, AllocError>
    requires kept { IsScript script.now }
    requires short { IsShort script.now }
    requires moves { (0 < setup.moves) × (setup.moves ≤ MAX_MOVES) }
    requires capacity { (0 < setup.capacity) × (setup.capacity ≤ MAX_CAPACITY) }
    requires workers { (0 < setup.workers) × (setup.workers ≤ MAX_WORKERS) }
    ensures ran { IfOk result (λ made. RanTo setup.moves made.ending script.now made.run.entries) }
    ensures rising { IfOk result (λ made. AreRising made.run.entries) }
    ensures far { IfOk result (λ made. GoesFar setup.moves script.now made.run.entries) }
    ensures text { IfOk result (λ made. made.text.items ≡ text_of script.now made.run.entries (cut_of made.ending)) }
{
    let (end, run) = run_nodes(rt, alloc, script, setup, gate)?;
    let ending = Status::from(end);
    let text = write(alloc, script, &run, ending.cut())?;
    Ok(Made { ending, run, text })
}

/// Reads a script, and runs its nodes on threads.
pub(crate) fn threaded<R: Threads + Sync, S: Source, G: Gate>(
    rt: &R,
    alloc: Global,
    setup: Setup,
    source: &mut S,
    gate: &G,
) -> Result<Made, Status>
    requires moves { (0 < setup.moves) × (setup.moves ≤ MAX_MOVES) }
    requires capacity { (0 < setup.capacity) × (setup.capacity ≤ MAX_CAPACITY) }
    requires workers { (0 < setup.workers) × (setup.workers ≤ MAX_WORKERS) }
    ensures does { IfOk result (λ made. JournalsBy setup.moves (command.Run) made.ending (S.state source.old).left made.run.entries made.text.items) }
    ensures whole { OnOk result (IsReadWhole MAX_INPUT (S.state source.old) (S.state source.new)) }
    ensures reading { IfErr result (λ answer. SaysOfSource MAX_INPUT (outcome_of answer) (S.state source.old) (S.state source.new)) }
    ensures refused { IfErr result (IsRefusal (command.Run) (S.state source.old).left) }
    ensures memory { IfErr result (λ answer. answer ≡ Status.NoMemory
        → Rose (S.state source.old).given (S.state source.new).given) }
{
    let script = read_script(alloc, source)?;
    match threads_journal(rt, alloc, &script, setup, gate) {
        Ok(made) => Ok(made),
        Err(_) => Err(Status::NoMemory),
    }
}
