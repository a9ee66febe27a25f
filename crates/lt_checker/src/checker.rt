ghost use Rattle.std.specs.Prelude.{◌≡◌, ◌≢◌, [], ◌∷◌, ◌++◌, ◌≤◌, ℕ, List, length, take, ◌↔◌, Some, None, Ok, Err, is_some, IsTrue, IsNone, IsErr, IfOk, IfSome, OnOk, OnErr};
ghost use Rattle.lt_text.specs.Text.{lines, without_return, is_line_end, HasNone};
ghost use Rattle.lt_modes.specs.Script.{ScriptData};
ghost use Rattle.lt_spec.specs.Script.{IsScript, IsShort};
ghost use Rattle.lt_law_journals.specs.Checking.{Reader as AnyReader, checked, read_on, Feed, new_feed, fed_piece, last_ended, ended};
ghost use Rattle.lt_checker.specs.Checker.{AreGoodToLast, CheckerData, StandsFor, IsAnswer, IsMemory, MayReadOn, MayReadLast, with_piece, spent, IsWorldAnswer};
ghost use Rattle.lt_checker.specs.First.{FeedsLine};

use crate::error::ReplayError;
use crate::reader::Reader;
use crate::short::is_short;
use arrayvec::ArrayVec;
use lt_merge::Run;
use lt_script::Script;
use lt_text::trim_return;
use lt_world::World;
use memchr::{memchr, memrchr};
use std::alloc::{AllocError, Global};
use std::marker::Model;

/// Checks a journal as its bytes come, in pieces of any size.
///
/// It keeps the world, the lines that must come next, the number of good lines, and at most 201 bytes of a line
/// that isn't whole: no good line is so long.
pub struct Checker {
    script: Script,
    // What the whole lines have told; none once memory was refused.
    reader: Option<Reader>,
    rest: ArrayVec<u8, 201>,
}

impl Model for Checker {
    ghost use Rattle.lt_checker.specs.Checker.{CheckerData, IsOfScript, feed_of};

    ghost Value = { CheckerData };

    ghost view = { λ c. record { script = c.script; feed = feed_of c.reader c.rest.items } };

    ghost invariant = { λ c. IsOfScript c.script c.reader };
}

// Written out, so that all places which let a checker go call this.
impl Drop for Checker {
    fn drop(self) {
        let Checker {
            script,
            reader,
            rest,
        } = self;
        drop(script);
        drop(reader);
        drop(rest);
    }
}

impl Checker {
    /// A checker that has no bytes yet; none where the script has more sets or commands than a text may have.
    pub fn new(alloc: Global, script: &Script) -> Result<Option<Checker>, AllocError>
        ensures some { IfOk result (λ made. IsTrue (is_some made) ↔ IsShort script.now) }
        ensures none { ¬ IsShort script.now → result ≡ Ok None }
        ensures checker { IfOk result (λ made. IfSome made
            (λ checker. checker ≡ record { script = script.now; feed = Some (new_feed script.now) })) }
        ensures stands { IfOk result (λ made. IfSome made (λ checker. StandsFor checker [])) }
    {
        if !is_short(script) {
            return Ok(None);
        }
        let reader = Reader::new(alloc, script)?;
        let script = script.copy(alloc)?;
        Ok(Some(Checker {
            script,
            reader: Some(reader),
            rest: ArrayVec::new(),
        }))
    }

    /// Takes the next bytes. Once memory was refused, each later call fails too.
    pub fn feed(&mut self, piece: &[u8]) -> Result<(), AllocError>
        ensures ok { OnOk result (self.new ≡ with_piece self.old piece.now) }
        ensures err { OnErr result (self.new ≡ spent self.old) }
        ensures refused { IsNone self.old.feed → IsErr result }
        ensures cause { IsErr result → IfSome self.old.feed (λ feed. MayReadOn feed piece.now) }
        ensures stands { OnOk result ((bytes : List ℕ) → StandsFor self.old bytes → StandsFor self.new (bytes ++ piece.now)) }
    {
        let Some(reader) = &mut self.reader else {
            return Err(AllocError);
        };
        match feed_all(reader, &mut self.rest, piece) {
            Ok(()) => Ok(()),
            Err(error) => {
                self.reader = None;
                Err(error)
            }
        }
    }

    /// The run whose journal the bytes are, or the first bad line.
    pub fn end(self) -> Result<Run, ReplayError>
        ensures answers { (bytes : List ℕ) → StandsFor self bytes → IsAnswer (checked self.script (lines bytes)) result }
        ensures ended { (feed : Feed) → self.feed ≡ Some feed → IsAnswer (ended self.script feed) result }
        ensures refused { IsNone self.feed → result ≡ Err ReplayError.Memory }
        ensures cause { IsMemory result → IfSome self.feed MayReadLast }
    {
        Ok(self.end_world()?.into_run())
    }

    /// The world in which the run ended whose journal the bytes are, or the first bad line. Memory is wanted of a last
    /// line alone that has no line end.
    pub fn end_world(self) -> Result<World, ReplayError>
        ensures answers { (bytes : List ℕ) → StandsFor self bytes
            → IsWorldAnswer self.script (checked self.script (lines bytes)) result }
        ensures ended { (feed : Feed) → self.feed ≡ Some feed
            → IsWorldAnswer self.script (ended self.script feed) result }
        ensures refused { IsNone self.feed → result ≡ Err ReplayError.Memory }
        ensures cause { IsMemory result → IfSome self.feed MayReadLast }
        ensures memory { IsMemory result → (bytes : List ℕ) → StandsFor self bytes
            → AreGoodToLast self.script (lines bytes) }
    {
        let Checker {
            script,
            reader,
            mut rest,
        } = self;
        drop(script);
        let Some(reader) = reader else {
            return Err(ReplayError::Memory);
        };
        end_last_line(reader, &mut rest)?.finish_world()
    }
}

// Ends a last line that has no line end.
fn end_last_line(mut reader: Reader, rest: &mut ArrayVec<u8, 201>) -> Result<Reader, AllocError>
    ensures script { IfOk result (λ after. after.script ≡ reader.script) }
    ensures kept { IsScript reader.script }
    ensures short { IsShort reader.script }
    ensures ended { IfOk result (λ after. after.reader
        ≡ (last_ended reader.script (record { reader = reader.reader; rest = rest.old.items })).reader) }
    ensures cause { IsErr result → MayReadLast (record { reader = reader.reader; rest = rest.old.items }) }
{
    if !rest.is_empty() {
        reader.take(trim_return(rest))?;
    }
    Ok(reader)
}

// Takes the bytes line by line.
fn feed_all(
    reader: &mut Reader,
    rest: &mut ArrayVec<u8, 201>,
    piece: &[u8],
) -> Result<(), AllocError>
    ensures script { reader.new.script ≡ reader.old.script }
    ensures fed { OnOk result (record { reader = reader.new.reader; rest = rest.new.items }
        ≡ fed_piece reader.old.script (record { reader = reader.old.reader; rest = rest.old.items }) piece.now) }
    ensures cause { IsErr result → MayReadOn (record { reader = reader.old.reader; rest = rest.old.items }) piece.now }
{
    let mut left = piece;
    while !reader.is_bad() {
        let Some(later) = feed_line(reader, rest, left)? else {
            keep(rest, left);
            return Ok(());
        };
        left = later;
    }
    skip_lines(rest, left);
    Ok(())
}

// Takes the first line that ends in the bytes, and tells what stands after its line end.
#[inline(always)]
fn feed_line<'a>(
    reader: &mut Reader,
    rest: &mut ArrayVec<u8, 201>,
    bytes: &'a [u8],
) -> Result<Option<&'a [u8]>, AllocError>
    ensures script { reader.new.script ≡ reader.old.script }
    ensures fed { IfOk result (λ found. FeedsLine reader.old.script
        (record { reader = reader.old.reader; rest = rest.old.items }) bytes.now found
        (record { reader = reader.new.reader; rest = rest.new.items })) }
    ensures ends { IsErr result → ¬ HasNone is_line_end bytes.now }
{
    let begins = rest.is_empty();
    if begins {
        feed_first(reader, rest, bytes)
    } else {
        feed_next(reader, rest, bytes)
    }
}

// The same of a line that begins here. Its end is looked for only if `take_first` finds none.
#[inline(always)]
fn feed_first<'a>(
    reader: &mut Reader,
    rest: &mut ArrayVec<u8, 201>,
    bytes: &'a [u8],
) -> Result<Option<&'a [u8]>, AllocError>
    requires { rest.old.items ≡ [] }
    ensures script { reader.new.script ≡ reader.old.script }
    ensures fed { IfOk result (λ found. FeedsLine reader.old.script
        (record { reader = reader.old.reader; rest = rest.old.items }) bytes.now found
        (record { reader = reader.new.reader; rest = rest.new.items })) }
    ensures ends { IsErr result → ¬ HasNone is_line_end bytes.now }
{
    if let Some(later) = reader.take_first(bytes)? {
        return Ok(Some(later));
    }
    feed_next(reader, rest, bytes)
}

// The same of a line whose end is looked for.
fn feed_next<'a>(
    reader: &mut Reader,
    rest: &mut ArrayVec<u8, 201>,
    bytes: &'a [u8],
) -> Result<Option<&'a [u8]>, AllocError>
    ensures script { reader.new.script ≡ reader.old.script }
    ensures fed { IfOk result (λ found. FeedsLine reader.old.script
        (record { reader = reader.old.reader; rest = rest.old.items }) bytes.now found
        (record { reader = reader.new.reader; rest = rest.new.items })) }
    ensures ends { IsErr result → ¬ HasNone is_line_end bytes.now }
{
    let Some(end) = memchr(b'\n', bytes) else {
        return Ok(None);
    };
    let (line, _) = bytes.split_at(end);
    end_line(reader, rest, line)?;
    let (_, later) = bytes.split_at(end + 1);
    Ok(Some(later))
}

// The line whose last bytes these are is whole.
fn end_line(
    reader: &mut Reader,
    rest: &mut ArrayVec<u8, 201>,
    last: &[u8],
) -> Result<(), AllocError>
    ensures script { reader.new.script ≡ reader.old.script }
    ensures read { OnOk result (reader.new.reader
        ≡ read_on reader.old.script reader.old.reader (without_return (take 201 (rest.old.items ++ last.now)))) }
    ensures empty { OnOk result (rest.new.items ≡ []) }
    ensures few { length rest.old.items ≤ 201 }
{
    if rest.is_empty() {
        let (line, _) = last.split_at(last.len().min(201));
        reader.take(trim_return(line))?;
        return Ok(());
    }
    keep(rest, last);
    reader.take(trim_return(rest))?;
    rest.clear();
    Ok(())
}

// After a bad line no line counts: only the bytes after the last line end are kept.
fn skip_lines(rest: &mut ArrayVec<u8, 201>, piece: &[u8])
    ensures { (script : ScriptData) (reader : AnyReader) → reader.place ≡ None
        → record { reader = reader; rest = rest.new.items } ≡ fed_piece script (record { reader = reader; rest = rest.old.items }) piece.now }
{
    match memrchr(b'\n', piece) {
        Some(end) => {
            rest.clear();
            let (_, last) = piece.split_at(end + 1);
            keep(rest, last);
        }
        None => keep(rest, piece),
    }
}

// Keeps more bytes of a line that isn't whole, as far as there is room.
fn keep(rest: &mut ArrayVec<u8, 201>, bytes: &[u8])
    ensures kept { rest.new.items ≡ take 201 (rest.old.items ++ bytes.now) }
    ensures few { length rest.old.items ≤ 201 }
{
    let room = 201 - rest.len();
    let (kept, _) = bytes.split_at(bytes.len().min(room));
    match rest.try_extend_from_slice(kept) {
        Ok(()) => {}
        Err(_) => unreachable!(),
    }
}
