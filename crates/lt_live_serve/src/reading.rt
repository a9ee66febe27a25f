ghost use Rattle.std.specs.Prelude.{◌≡◌, ◌<◌, ◌≤◌, Ok, None, length, IfOk, OnOk, IfErr};
ghost use Rattle.lt_io.specs.Streams.{IsReadWhole, Rose};
ghost use Rattle.lt_call.specs.Outcomes.{IsRefusal, SaysOfSource};
ghost use Rattle.lt_call.specs.Scripts.{Denotes};
ghost use Rattle.lt_spec.specs.Script.{IsScript, IsShort};
ghost use Rattle.lt_script.specs.Reading.{read_of};
ghost use Rattle.lt_live_serve.specs.declared.limits.TheConstants.{MAX_INPUT};
ghost use Rattle.lt_live_serve.specs.Serves.{IsFirstOver, IsUnfit, IsFirstFaultOf};
ghost use Rattle.lt_live_serve.specs.Status.{outcome_of};

use crate::limits::MAX_INPUT;
use crate::over::first_over;
use crate::status::Status;
use lt_call::{read_bytes, read_script};
use lt_io::Source;
use lt_script::{ReadError, Script};
use std::alloc::Global;

/// Reads the source to its end, and the script that its bytes denote, in which no client has too many commands.
pub(crate) fn read_shared<S: Source>(alloc: Global, source: &mut S) -> Result<Script, Status>
    ensures script { IfOk result (Denotes (S.state source.old).left) }
    ensures kept { IfOk result IsScript }
    ensures short { IfOk result IsShort }
    ensures shared { IfOk result (λ script. IsFirstOver script None) }
    ensures whole { OnOk result (IsReadWhole MAX_INPUT (S.state source.old) (S.state source.new)) }
    ensures reading { IfErr result (λ answer. SaysOfSource MAX_INPUT (outcome_of answer) (S.state source.old) (S.state source.new)) }
    ensures refused { IfErr result (λ answer. IsRefusal (IsUnfit (S.state source.old).left answer) (outcome_of answer)) }
    ensures came { OnOk result (Rose (S.state source.old).given (S.state source.new).given) }
    ensures memory { IfErr result (λ answer. answer ≡ Status.NoMemory
        → Rose (S.state source.old).given (S.state source.new).given) }
{
    let bytes = read_bytes::<Status, S>(alloc, source, MAX_INPUT)?;
    let script = script_of(alloc, &bytes)?;
    match first_over(&script) {
        Some(client) => Err(Status::Share { client }),
        None => Ok(script),
    }
}

// The script that the bytes denote.
#[tactic(auto, using(lt_script::proofs::ShortScripts::read_is_short))]
fn script_of(alloc: Global, bytes: &[u8]) -> Result<Script, Status>
    requires few { length bytes.now ≤ MAX_INPUT }
    ensures script { IfOk result (λ script. read_of bytes.now ≡ Ok script) }
    ensures kept { IfOk result IsScript }
    ensures short { IfOk result IsShort }
    ensures some { OnOk result (0 < length bytes.now) }
    ensures refused { IfErr result (IsFirstFaultOf bytes.now) }
{
    match read_script(alloc, bytes) {
        Ok(script) => Ok(script),
        Err(ReadError::Fault(fault)) => Err(Status::Refused(fault)),
        Err(ReadError::Memory) => Err(Status::NoMemory),
    }
}
