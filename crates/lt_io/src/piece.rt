ghost use Rattle.std.specs.Prelude.{◌≡◌, ◌≢◌, ◌<◌, ◌≤◌, ℕ, List, [], length, take, IfOk, IfErr, OnOk};
ghost use Rattle.lt_io.specs.declared.whole.ReadFailure.TheVariants as failure;
ghost use Rattle.lt_io.specs.Streams.{ReadsOn, ReadsOut, FailsBy};

use crate::source::Source;
use crate::whole::ReadFailure;

/// How many bytes a piece may have.
pub const MAX_PIECE: usize = 4096;

/// Reads one piece of a source, of which so many bytes may come, into the front of the buffer, and returns how long
/// it is: it is empty at the end alone. No memory is taken.
pub fn read_piece<S: Source>(
    source: &mut S,
    buf: &mut [u8],
    limit: usize,
) -> Result<usize, ReadFailure>
    requires { 0 < length buf.old }
    ensures within { IfOk result (λ count. (count ≤ limit) × (count ≤ length buf.new)) }
    ensures piece { IfOk result (λ count. 0 < count → ReadsOn (take count buf.new) (S.state source.old) (S.state source.new)) }
    ensures end { IfOk result (λ count. count ≡ 0 → ReadsOut [] (S.state source.old) (S.state source.new)) }
    ensures err { IfErr result (λ why. FailsBy why limit (S.state source.old) (S.state source.new)) }
    ensures no_memory { IfErr result (λ why. why ≢ failure.Memory) }
{
    let room = limit.saturating_add(1).min(buf.len());
    let count = source.read(&mut buf[..room])?;
    if count > limit {
        return Err(ReadFailure::TooLong);
    }
    Ok(count)
}

/// Reads a source to its end and keeps nothing, where no more bytes come than the limit. No memory is taken.
pub fn skip_all<S: Source>(source: &mut S, limit: usize) -> Result<(), ReadFailure>
    ensures out { OnOk result ((bytes : List ℕ) × (length bytes ≤ limit) × ReadsOut bytes (S.state source.old) (S.state source.new)) }
    ensures err { IfErr result (λ why. FailsBy why limit (S.state source.old) (S.state source.new)) }
    ensures no_memory { IfErr result (λ why. why ≢ failure.Memory) }
{
    let mut buf = [0; MAX_PIECE];
    let mut room = limit;
    loop {
        let count = read_piece(source, &mut buf, room)?;
        if count == 0 {
            return Ok(());
        }
        room -= count;
    }
}
