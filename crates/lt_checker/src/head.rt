ghost use Rattle.std.specs.Prelude.{◌≡◌, ◌≤◌, take, length, IfOk, IfErr, IsTrue, IsFalse};
ghost use Rattle.lt_text.specs.Text.{lines};
ghost use Rattle.lt_journal.specs.Split.{ArePassed};
ghost use Rattle.lt_law_journals.specs.Checking.{IsSettled};
ghost use Rattle.lt_io.specs.declared.whole.ReadFailure.TheVariants as failure;
ghost use Rattle.lt_io.specs.Streams.{FailsBy, Rose};
ghost use Rattle.lt_checker.specs.declared.limits.TheConstants.{MAX_JOURNAL};
ghost use Rattle.lt_checker.specs.Heads.{IsHeadCut, IsLastLine, IsReadTo, IsRoom};

use crate::limits::MAX_JOURNAL;
use lt_io::{MAX_PIECE, ReadFailure, Source, read_piece};
use lt_journal::is_journal_line;
use lt_law_journals::law_settled;
use lt_script::line_end;
use lt_text::trim_return;
use std::alloc::Global;

/// The first bytes of an input: at least those up to and with the line `journal`, or all of them.
#[derive(Drop)]
pub(crate) struct Head {
    pub(crate) bytes: Vec<u8>,
    /// Where the first line `journal` begins that has come, or else the last line.
    pub(crate) last: LastLine,
    /// How many more may come; none where the source was found at its end.
    pub(crate) room: Option<usize>,
}

/// Where a line begins, and how many lines stand before it.
#[derive(Clone, Copy, Debug)]
pub(crate) struct LastLine {
    pub(crate) place: usize,
    pub(crate) before: u32,
}

/// Reads piece by piece, until the line `journal` has come or the source is at its end.
pub(crate) fn read_head<S: Source>(alloc: Global, source: &mut S) -> Result<Head, ReadFailure>
    ensures few { IfOk result (λ head. length head.bytes.items ≤ MAX_JOURNAL) }
    ensures cut { IfOk result (λ head. IsHeadCut head.bytes.items head.room) }
    ensures passed { IfOk result (λ head. ArePassed head.bytes.items head.last.place head.last.before) }
    ensures room { IfOk result (λ head. IsRoom head.room) }
    ensures head { IfOk result (λ head. IsReadTo head.bytes.items head.room (S.state source.old) (S.state source.new)) }
    ensures err { IfErr result (λ why. FailsBy why MAX_JOURNAL (S.state source.old) (S.state source.new)) }
    ensures memory { IfErr result (λ why.
        why ≡ failure.Memory → Rose (S.state source.old).given (S.state source.new).given) }
{
    let mut bytes = Vec::new(alloc);
    let mut buf = [0; MAX_PIECE];
    let mut last = LastLine {
        place: 0,
        before: 0,
    };
    loop {
        let count = read_piece(source, &mut buf, MAX_JOURNAL - bytes.len())?;
        if count == 0 {
            return Ok(Head {
                bytes,
                last,
                room: None,
            });
        }
        let seen = bytes.len();
        bytes.extend_from_slice(&buf[..count])?;
        let (next, has_come) = last_line(&bytes, seen, last);
        last = next;
        if has_come {
            let room = MAX_JOURNAL - bytes.len();
            return Ok(Head {
                bytes,
                last,
                room: Some(room),
            });
        }
    }
}

// Where the last line begins, or the first line `journal`, and whether that has come. The first bytes were seen
// before, and the last line in them begins at `line`.
fn last_line(bytes: &[u8], seen: usize, line: LastLine) -> (LastLine, bool)
    requires few { length bytes.now ≤ MAX_JOURNAL }
    requires places { (line.place ≤ seen) × (seen ≤ length bytes.now) }
    requires line { IsLastLine (take seen bytes.now) line.place }
    requires before { line.before ≡ length (lines (take line.place bytes.now)) }
    ensures passed { ArePassed bytes.now result.0.place result.0.before }
    ensures line { IsFalse result.1 → IsLastLine bytes.now result.0.place }
    ensures before { result.0.before ≡ length (lines (take result.0.place bytes.now)) }
    ensures settled { IsTrue result.1 → IsSettled bytes.now }
{
    law_settled();
    let mut last = line;
    let mut from = seen;
    while let Some(more) = line_end(&bytes[from..]) {
        let end = from + more;
        if is_journal_line(trim_return(&bytes[last.place..end])) {
            return (last, true);
        }
        from = end + 1;
        last = LastLine {
            place: from,
            before: last.before + 1,
        };
    }
    (last, false)
}
