ghost use Rattle.std.specs.Prelude.{◌≡◌, ◌<◌, ◌≤◌, Ok, length, IfOk, OnOk, IfErr};
ghost use Rattle.lt_call.specs.Outcomes.{SaysOfSource};
ghost use Rattle.lt_call.specs.Scripts.{Denotes};
ghost use Rattle.lt_io.specs.Streams.{IsReadWhole, Rose};
ghost use Rattle.lt_spec.specs.Script.{IsScript, IsShort};
ghost use Rattle.lt_script.specs.Reading.{read_of};
ghost use Rattle.lt_checker.specs.declared.limits.TheConstants.{MAX_JOURNAL};
ghost use Rattle.lt_serve.specs.declared.limits.TheConstants.{MAX_INPUT};
ghost use Rattle.lt_words.specs.declared.command.Command.TheVariants as command;
ghost use Rattle.lt_serve.specs.Causes.{IsRefusal};
ghost use Rattle.lt_serve.specs.Status.{outcome_of};
ghost use Rattle.lt_serve.specs.Serves.{IsFaultOf};

use crate::limits::MAX_INPUT;
use crate::status::Status;
use lt_call::read_bytes;
use lt_io::Source;
use lt_script::{ReadError, Script};
use std::alloc::Global;

/// Reads the source to its end, and the script that its bytes denote.
pub(crate) fn read_script<S: Source>(alloc: Global, source: &mut S) -> Result<Script, Status>
    ensures script { IfOk result (Denotes (S.state source.old).left) }
    ensures kept { IfOk result IsScript }
    ensures short { IfOk result IsShort }
    ensures whole { OnOk result (IsReadWhole MAX_INPUT (S.state source.old) (S.state source.new)) }
    ensures reading { IfErr result (λ answer. SaysOfSource MAX_INPUT (outcome_of answer) (S.state source.old) (S.state source.new)) }
    ensures refused { IfErr result (IsRefusal command.SimFirst (S.state source.old).left) }
    ensures came { OnOk result (Rose (S.state source.old).given (S.state source.new).given) }
    ensures memory { IfErr result (λ answer. answer ≡ Status.NoMemory
        → Rose (S.state source.old).given (S.state source.new).given) }
{
    let bytes = read_bytes::<Status, S>(alloc, source, MAX_INPUT)?;
    script_of(alloc, &bytes)
}

/// The script that the bytes denote.
pub(crate) fn script_of(alloc: Global, bytes: &[u8]) -> Result<Script, Status>
    requires few { length bytes.now ≤ MAX_JOURNAL }
    ensures script { IfOk result (λ script. read_of bytes.now ≡ Ok script) }
    ensures kept { IfOk result IsScript }
    ensures short { IfOk result IsShort }
    ensures some { OnOk result (0 < length bytes.now) }
    ensures refused { IfErr result (IsFaultOf bytes.now) }
{
    match lt_call::read_script(alloc, bytes) {
        Ok(script) => Ok(script),
        Err(ReadError::Fault(fault)) => Err(Status::Refused(fault)),
        Err(ReadError::Memory) => Err(Status::NoMemory),
    }
}
