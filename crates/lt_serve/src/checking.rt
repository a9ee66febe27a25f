ghost use Rattle.std.specs.Prelude.{◌≡◌, ◌++◌, codes, length, IfOk, OnOk, IfErr};
ghost use Rattle.std.specs.Fmt.{decimal};
ghost use Rattle.std.specs.String.{string_bytes};
ghost use Rattle.lt_call.specs.Outcomes.{SaysOfSource};
ghost use Rattle.lt_io.specs.Streams.{IsReadWhole};
ghost use Rattle.lt_checker.specs.Input.{WantsMemory};
ghost use Rattle.lt_checker.specs.declared.limits.TheConstants.{MAX_JOURNAL};
ghost use Rattle.lt_words.specs.declared.command.Command.TheVariants as command;
ghost use Rattle.lt_serve.specs.Causes.{IsRefusal};
ghost use Rattle.lt_serve.specs.Status.{outcome_of};
ghost use Rattle.lt_serve.specs.TopCall.{Checks};

use crate::made::Made;
use crate::status::Status;
use lt_checker::check_input;
use lt_io::Source;
use lt_law_promises::law_promised;
use lt_merge::Run;
use std::alloc::{AllocError, Global};
use std::fmt::Write;

/// Reads a script and a journal, and says whether the journal is that of a run of the script.
#[tactic(auto, using(crate::proofs::Checked::fails_says, crate::proofs::Checked::fails_refused, crate::proofs::Checked::fails_wants, crate::proofs::Checked::memory_says))]
pub(crate) fn checked<S: Source>(alloc: Global, source: &mut S) -> Result<Made, Status>
    ensures does { IfOk result (λ made. Checks made.ending (S.state source.old).left made.run.entries made.text.items) }
    ensures whole { OnOk result (IsReadWhole MAX_JOURNAL (S.state source.old) (S.state source.new)) }
    ensures reading { IfErr result (λ answer. SaysOfSource MAX_JOURNAL (outcome_of answer) (S.state source.old) (S.state source.new)) }
    ensures refused { IfErr result (IsRefusal command.Check (S.state source.old).left) }
    ensures memory { IfErr result (λ answer. answer ≡ Status.NoMemory
        → WantsMemory (S.state source.old) (S.state source.new)) }
{
    law_promised();
    let ended = check_input(alloc, source)?;
    match with_count(alloc, ended.world.into_run()) {
        Ok(made) => Ok(made),
        Err(_) => Err(Status::NoMemory),
    }
}

// The run, with the line that says the number of its moves.
fn with_count(alloc: Global, run: Run) -> Result<Made, AllocError>
    ensures { IfOk result (λ made. (made.ending ≡ Status.Done) × (made.run.entries ≡ run.entries)
        × (made.text.items ≡ codes "ok " ++ decimal (length run.entries) ++ codes "\n")) }
{
    let text = count_line(alloc, run.len())?;
    Ok(Made {
        ending: Status::Done,
        run,
        text: text.into_bytes(),
    })
}

fn count_line(alloc: Global, count: u32) -> Result<String, AllocError>
    ensures { IfOk result (λ text. string_bytes text ≡ codes "ok " ++ decimal count ++ codes "\n") }
{
    format!(in alloc; "ok {count}\n")
}
