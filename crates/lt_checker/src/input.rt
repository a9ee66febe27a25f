ghost use Rattle.std.specs.Prelude.{◌≡◌, ◌*◌, ◌≤◌, ◌++◌, ℕ, List, Ok, take, drop, length, IfOk, OnOk, IfErr};
ghost use Rattle.lt_io.specs.Streams.{IsReadWhole};
ghost use Rattle.lt_text.specs.Text.{lines};
ghost use Rattle.lt_spec.specs.Script.{IsScript, IsShort};
ghost use Rattle.lt_script.specs.Reading.{read_of};
ghost use Rattle.lt_journal.specs.Split.{ArePassed, input_parts};
ghost use Rattle.lt_checker.specs.declared.limits.TheConstants.{MAX_JOURNAL};
ghost use Rattle.lt_checker.specs.Checker.{StandsFor};
ghost use Rattle.lt_checker.specs.Heads.{IsHeadCut, IsRest, FailsRest, IsRoom, IsLineOf, IsJournalAnswer, AnswersInput};
ghost use Rattle.lt_checker.specs.Input.{IsEndedRun, FailsInput, WantsMemory};

use crate::checker::Checker;
use crate::error::{InputError, ReplayError};
use crate::head::{LastLine, read_head};
use crate::rest::{feed_rest, skip_rest};
use lt_io::{ReadFailure, Source};
use lt_journal::split_from;
use lt_law_journals::law_means;
use lt_script::{Fault, ReadError, Script, ScriptFault, read};
use lt_world::World;
use std::alloc::{AllocError, Global};

/// A script, and the world in which a run of it ended at rest.
#[derive(Drop)]
pub struct EndedRun {
    pub script: Script,
    pub world: World,
}

/// Reads a script and a journal, and checks the journal as it comes: the script, and the world in which the run ended
/// that the journal tells. Memory is wanted once a byte came.
pub fn check_input<S: Source>(alloc: Global, source: &mut S) -> Result<EndedRun, InputError>
    ensures told { IfOk result (λ ended. IsEndedRun (S.state source.old).left ended.script ended.world) }
    ensures kept { IfOk result (λ ended. IsScript ended.script) }
    ensures short { IfOk result (λ ended. IsShort ended.script) }
    ensures whole { OnOk result (IsReadWhole MAX_JOURNAL (S.state source.old) (S.state source.new)) }
    ensures err { IfErr result (λ error. FailsInput error (S.state source.old) (S.state source.new)) }
    ensures memory { OnOk result (WantsMemory (S.state source.old) (S.state source.new)) }
{
    let head = read_head(alloc, source)?;
    if head.bytes.is_empty() {
        return Err(InputError::Refused(ScriptFault {
            line: 1,
            fault: Fault::Nodes,
        }));
    }
    judged(alloc, source, &head.bytes, head.last, head.room)?
}

// Reads what comes after the first bytes of an input, and answers the whole input. A script with a fault is the answer
// once all was read.
fn judged<S: Source>(
    alloc: Global,
    source: &mut S,
    bytes: &[u8],
    last: LastLine,
    room: Option<usize>,
) -> Result<Result<EndedRun, InputError>, ReadFailure>
    requires few { length bytes.now ≤ MAX_JOURNAL }
    requires cut { IsHeadCut bytes.now room }
    requires passed { ArePassed bytes.now last.place last.before }
    requires room { IsRoom room }
    ensures answer { IfOk result (λ answer. (rest : List ℕ) × AnswersInput (bytes.now ++ rest) answer × IsRest room rest (S.state source.old) (S.state source.new)) }
    ensures kept { IfOk result (λ answer. IfOk answer (λ ended. IsScript ended.script)) }
    ensures short { IfOk result (λ answer. IfOk answer (λ ended. IsShort ended.script)) }
    ensures err { IfErr result (λ why. FailsRest room why (S.state source.old) (S.state source.new)) }
{
    let parts = split_from(bytes, last.place, last.before);
    let script = match read(alloc, &bytes[..parts.script as usize]) {
        Ok(script) => script,
        Err(ReadError::Memory) => return Err(ReadFailure::Memory),
        Err(ReadError::Fault(fault)) => {
            skip_rest(source, room)?;
            return Ok(Err(InputError::Refused(fault)));
        }
    };
    let (_, journal) = bytes.split_at(parts.journal as usize);
    let told = checked_journal(alloc, source, &script, journal, room)?;
    Ok(answered(script, parts.lines, told))
}

// What a checker says of the journal that begins with these bytes and goes on with what is left of the input.
fn checked_journal<S: Source>(
    alloc: Global,
    source: &mut S,
    script: &Script,
    first: &[u8],
    room: Option<usize>,
) -> Result<Result<World, ReplayError>, ReadFailure>
    requires { IsShort script.now }
    ensures told { IfOk result (λ told. (rest : List ℕ)
        × IsJournalAnswer script.now (lines (first.now ++ rest)) told
        × IsRest room rest (S.state source.old) (S.state source.new)) }
    ensures err { IfErr result (λ why. FailsRest room why (S.state source.old) (S.state source.new)) }
{
    let mut checker = begun(alloc, script, first)?;
    feed_rest(source, room, &mut checker)?;
    Ok(checker.end_world())
}

// A checker of a journal that begins with these bytes.
fn begun(alloc: Global, script: &Script, first: &[u8]) -> Result<Checker, AllocError>
    requires { IsShort script.now }
    ensures script { IfOk result (λ checker. checker.script ≡ script.now) }
    ensures stands { IfOk result (λ checker. StandsFor checker first.now) }
{
    let Some(mut checker) = Checker::new(alloc, script)? else {
        unreachable!();
    };
    checker.feed(first)?;
    Ok(checker)
}

// The answer to an input with so many lines before its journal, of which a checker said this.
fn answered(
    script: Script,
    before: u32,
    told: Result<World, ReplayError>,
) -> Result<EndedRun, InputError>
    requires few { before ≤ MAX_JOURNAL }
    requires line { IsLineOf (2 * MAX_JOURNAL) told }
    requires kept { IsScript script }
    requires short { IsShort script }
    ensures answer { (bytes : List ℕ) → read_of (take (input_parts bytes).script bytes) ≡ Ok script → before ≡ (input_parts bytes).lines
        → IsJournalAnswer script (lines (drop (input_parts bytes).journal bytes)) told → AnswersInput bytes result }
    ensures script { IfOk result (λ ended. ended.script ≡ script) }
{
    law_means();
    match told {
        Ok(world) => Ok(EndedRun { script, world }),
        Err(ReplayError::Memory) => Err(InputError::NoMemory),
        Err(ReplayError::Bad { line }) => Err(InputError::BadJournal {
            line: before + line,
        }),
    }
}
