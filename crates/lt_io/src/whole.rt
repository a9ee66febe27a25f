ghost use Rattle.std.specs.Prelude.{◌≡◌, ◌≤◌, length, vec_len, IfOk, IfErr, OnOk, OnErr};
ghost use Rattle.std.specs.Io.KnownBytes.{Appends};
ghost use Rattle.lt_io.specs.declared.whole.ReadFailure.TheVariants as failure;
ghost use Rattle.lt_io.specs.Streams.{Rose, HasCause, ReadsOut, FailsBy, AppendsPart, WritesByFewest, StopsByFewest};

use crate::piece::{MAX_PIECE, read_piece};
use crate::sink::Sink;
use crate::source::{Failed, Source};
use std::alloc::{AllocError, Global};
use std::error::Error;
use std::fmt;

/// Why a source was not read whole.
#[derive(Clone, Copy, Debug, PartialEq, Eq)]
pub enum ReadFailure {
    /// Memory was wanting.
    Memory,
    /// A read failed.
    Failed,
    /// The source has more bytes than the limit.
    TooLong,
}

impl fmt::Display for ReadFailure {
    ghost use Rattle.std.specs.Prelude.{Some};
    ghost use Rattle.lt_io.specs.Texts.{failure_text};

    ghost output = { λ why. Some (failure_text why) };

    fn fmt<W: fmt::Write>(&self, f: &mut fmt::Formatter<W>) -> fmt::Result {
        f.write_str(match self {
            ReadFailure::Memory => "out of memory",
            ReadFailure::Failed => "a read failed",
            ReadFailure::TooLong => "the input is too long",
        })
    }
}

impl Error for ReadFailure {}

impl From<Failed> for ReadFailure {
    ghost from_gives = { λ _ e. e ≡ failure.Failed };

    fn from(_failed: Failed) -> ReadFailure {
        ReadFailure::Failed
    }
}

impl From<AllocError> for ReadFailure {
    ghost from_gives = { λ _ e. e ≡ failure.Memory };

    fn from(_error: AllocError) -> ReadFailure {
        ReadFailure::Memory
    }
}

/// Reads a source to its end. Of a source with more bytes than the limit one more than the limit is read. Memory is
/// taken only for bytes that came.
pub fn read_all<S: Source>(
    alloc: Global,
    source: &mut S,
    limit: usize,
) -> Result<Vec<u8>, ReadFailure>
    ensures out { IfOk result (λ bytes. ReadsOut bytes.items (S.state source.old) (S.state source.new)) }
    ensures within { IfOk result (λ bytes. vec_len bytes ≤ limit) }
    ensures err { IfErr result (λ why. FailsBy why limit (S.state source.old) (S.state source.new)) }
    ensures memory { IfErr result (λ why. why ≡ failure.Memory → Rose (S.state source.old).given (S.state source.new).given) }
{
    let mut bytes = Vec::new(alloc);
    let mut buf = [0; MAX_PIECE];
    loop {
        let count = read_piece(source, &mut buf, limit - bytes.len())?;
        if count == 0 {
            return Ok(bytes);
        }
        bytes.extend_from_slice(&buf[..count])?;
    }
}

/// Writes all of these bytes. Each write is given all that is not written yet.
pub fn write_all<K: Sink>(sink: &mut K, bytes: &[u8]) -> Result<(), Failed>
    ensures all { OnOk result (Appends (K.held sink.old) (K.held sink.new) bytes.now) }
    ensures part { OnErr result (AppendsPart (K.held sink.old) (K.held sink.new) bytes.now) }
    ensures cause { HasCause (K.faults sink.old) (K.faults sink.new) result }
    ensures few { OnOk result (WritesByFewest (K.pace sink.old) (K.pace sink.new) (length bytes.now)) }
    ensures few_failed { OnErr result (StopsByFewest (K.pace sink.old) (K.pace sink.new)
        (K.held sink.old) (K.held sink.new) bytes.now) }
{
    let mut at = 0;
    while at < bytes.len() {
        at += sink.write(&bytes[at..])?;
    }
    Ok(())
}
