ghost use Rattle.std.specs.Prelude.{◌≡◌, ◌<◌, ◌-◌, ◌^◌, length, IfOk, OnOk, IfErr};
ghost use Rattle.lt_spec.specs.Script.{IsShort};
ghost use Rattle.lt_script.specs.declared.fault.ReadError.TheVariants as errors;
ghost use Rattle.lt_script.specs.Reading.{Reads, read_of};

use lt_script::{Fault, ReadError, Script, ScriptFault, read};
use std::alloc::Global;

/// The script that the bytes denote, or their first fault. A script has bytes, and only where there are some is memory
/// wanted.
pub fn read_script(alloc: Global, bytes: &[u8]) -> Result<Script, ReadError>
    requires { length bytes.now < 2 ^ 32 - 1 }
    ensures read { Reads result (read_of bytes.now) }
    ensures short { IfOk result IsShort }
    ensures some { OnOk result (0 < length bytes.now) }
    ensures memory { IfErr result (λ error. error ≡ errors.Memory → 0 < length bytes.now) }
{
    if bytes.is_empty() {
        return Err(ReadError::Fault(ScriptFault {
            line: 1,
            fault: Fault::Nodes,
        }));
    }
    read(alloc, bytes)
}
