ghost use Rattle.std.specs.Prelude.{◌≡◌, ◌<◌, ◌≤◌, length, IfOk, OnOk, IfErr};
ghost use Rattle.lt_io.specs.Streams.{Left, IsReadWhole, Rose};
ghost use Rattle.lt_call.specs.Outcomes.{CameInPart, IsReadFailure, SaysOfSource};

use crate::outcome::Outcome;
use crate::status::Status;
use lt_io::{Source, read_all};
use std::alloc::Global;

/// Reads the source to its end, where it has no more bytes than the limit.
pub fn read_bytes<A: Status, S: Source>(
    alloc: Global,
    source: &mut S,
    limit: usize,
) -> Result<Vec<u8>, A>
    ensures bytes { IfOk result (λ bytes. Left (S.state source.old).left bytes.items) }
    ensures few { IfOk result (λ bytes. length bytes.items ≤ limit) }
    ensures whole { OnOk result (IsReadWhole limit (S.state source.old) (S.state source.new)) }
    ensures reading { IfErr result (λ status. SaysOfSource limit (A.outcome status) (S.state source.old) (S.state source.new)) }
    ensures refused { IfErr result (λ status. IsReadFailure (A.outcome status)) }
    ensures came { IfOk result (λ bytes.
        0 < length bytes.items → Rose (S.state source.old).given (S.state source.new).given) }
    ensures memory { IfErr result (λ status.
        A.outcome status ≡ Outcome.NoMemory → CameInPart (S.state source.old) (S.state source.new)) }
{
    match read_all(alloc, source, limit) {
        Ok(bytes) => Ok(bytes),
        Err(failure) => Err(A::of(Outcome::from(failure))),
    }
}
