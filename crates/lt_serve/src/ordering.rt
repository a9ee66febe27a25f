ghost use Rattle.std.specs.Prelude.{◌≡◌, IfOk, IfErr, OnOk};
ghost use Rattle.lt_call.specs.Outcomes.{SaysOfSource};
ghost use Rattle.lt_io.specs.Streams.{IsReadWhole, Rose};
ghost use Rattle.lt_spec.specs.Ordered.{first_bad};
ghost use Rattle.lt_words.specs.declared.command.Command.TheVariants as command;
ghost use Rattle.lt_serve.specs.declared.limits.TheConstants.{MAX_INPUT};
ghost use Rattle.lt_serve.specs.Causes.{IsRefusal};
ghost use Rattle.lt_serve.specs.Status.{outcome_of};
ghost use Rattle.lt_serve.specs.TopCall.{TellsOrder, order_answer};

use crate::made::Made;
use crate::reading::read_script;
use crate::status::Status;
use lt_io::Source;
use lt_merge::Run;
use lt_order::first_bad;
use lt_script::Script;
use std::alloc::{AllocError, Global};

/// Reads a script, and tells whether it is ordered.
pub(crate) fn order_told<S: Source>(alloc: Global, source: &mut S) -> Result<Made, Status>
    ensures does { IfOk result (λ made. TellsOrder made.ending (S.state source.old).left made.run.entries made.text.items) }
    ensures whole { OnOk result (IsReadWhole MAX_INPUT (S.state source.old) (S.state source.new)) }
    ensures reading { IfErr result (λ answer. SaysOfSource MAX_INPUT (outcome_of answer) (S.state source.old) (S.state source.new)) }
    ensures refused { IfErr result (IsRefusal command.Order (S.state source.old).left) }
    ensures memory { IfErr result (λ answer. answer ≡ Status.NoMemory
        → Rose (S.state source.old).given (S.state source.new).given) }
{
    let script = read_script(alloc, source)?;
    match order_answer(alloc, &script) {
        Ok(text) => Ok(Made {
            ending: Status::Done,
            run: Run::new(alloc),
            text,
        }),
        Err(_) => Err(Status::NoMemory),
    }
}

// The line that tells whether the script is ordered.
fn order_answer(alloc: Global, script: &Script) -> Result<Vec<u8>, AllocError>
    ensures { IfOk result (λ text. text.items ≡ order_answer script.now (first_bad script.now)) }
{
    let Some(client) = first_bad(alloc, script)? else {
        return Vec::from_slice(alloc, b"ordered\n");
    };
    let mut text = Vec::from_slice(alloc, b"not ordered ")?;
    text.extend_from_slice(script.client_name(client))?;
    text.push(b'\n')?;
    Ok(text)
}
