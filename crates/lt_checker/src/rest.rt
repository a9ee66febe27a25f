ghost use Rattle.std.specs.Prelude.{◌≢◌, ◌≤◌, ℕ, List, length, IfErr, OnOk};
ghost use Rattle.lt_io.specs.declared.whole.ReadFailure.TheVariants as failure;
ghost use Rattle.lt_io.specs.Streams.{ReadsOut, FailsBy};
ghost use Rattle.lt_checker.specs.Heads.{IsRest, FailsRest, IsFed};

use crate::checker::Checker;
use lt_io::{MAX_PIECE, ReadFailure, Source, read_piece, skip_all};

/// Reads what is left of an input after its first bytes, and keeps nothing. No memory is taken.
pub(crate) fn skip_rest<S: Source>(source: &mut S, room: Option<usize>) -> Result<(), ReadFailure>
    ensures rest { OnOk result ((rest : List ℕ) × IsRest room rest (S.state source.old) (S.state source.new)) }
    ensures err { IfErr result (λ why. FailsRest room why (S.state source.old) (S.state source.new)) }
    ensures no_memory { IfErr result (λ why. why ≢ failure.Memory) }
{
    match room {
        Some(limit) => skip_all(source, limit),
        None => Ok(()),
    }
}

/// Reads what is left of an input after its first bytes, and feeds it to the checker.
pub(crate) fn feed_rest<S: Source>(
    source: &mut S,
    room: Option<usize>,
    checker: &mut Checker,
) -> Result<(), ReadFailure>
    ensures rest { OnOk result ((rest : List ℕ) × IsFed rest checker.old checker.new × IsRest room rest (S.state source.old) (S.state source.new)) }
    ensures err { IfErr result (λ why. FailsRest room why (S.state source.old) (S.state source.new)) }
{
    match room {
        Some(limit) => feed_all(source, limit, checker),
        None => Ok(()),
    }
}

// Feeds the source to its end, where no more bytes come than the limit.
fn feed_all<S: Source>(
    source: &mut S,
    limit: usize,
    checker: &mut Checker,
) -> Result<(), ReadFailure>
    ensures rest { OnOk result ((rest : List ℕ) × IsFed rest checker.old checker.new × (length rest ≤ limit) × ReadsOut rest (S.state source.old) (S.state source.new)) }
    ensures err { IfErr result (λ why. FailsBy why limit (S.state source.old) (S.state source.new)) }
{
    let mut buf = [0; MAX_PIECE];
    let mut room = limit;
    loop {
        let count = read_piece(source, &mut buf, room)?;
        if count == 0 {
            return Ok(());
        }
        checker.feed(&buf[..count])?;
        room -= count;
    }
}
