ghost use Rattle.std.specs.Prelude.{◌≡◌, ◌↔◌, ℕ, List, Ok, None, map, is_some, IfOk, IsTrue};
ghost use Rattle.lt_spec.specs.Script.{IsShort};
ghost use Rattle.lt_journal.specs.Grammar.{read_line};
ghost use Rattle.lt_law_journals.specs.Checking.{written, reader_after, checked, checked_said};
ghost use Rattle.lt_checker.specs.Checker.{IsAnswer, IsAnswerOrNone};

use crate::error::ReplayError;
use crate::reader::Reader;
use crate::short::is_short;
use lt_journal::{Journal, write_line};
use lt_merge::Run;
use lt_script::Script;
use std::alloc::{AllocError, Global};

/// The run whose journal this is, or the first bad line of the journal; none where the script has more sets or commands
/// than a text may have.
pub fn replay(alloc: Global, script: &Script, journal: &Journal) -> Result<Option<Run>, ReplayError>
    ensures some { IfOk result (λ run. IsTrue (is_some run) ↔ IsShort script.now) }
    ensures none { ¬ IsShort script.now → result ≡ Ok None }
    ensures said { IsAnswerOrNone (checked_said script.now journal.now) result }
    ensures read { (all : List (List ℕ)) → journal.now ≡ map (read_line script.now) all
        → IsAnswerOrNone (checked script.now all) result }
{
    if !is_short(script) {
        return Ok(None);
    }
    match replayed(alloc, script, journal) {
        Ok(run) => Ok(Some(run)),
        Err(error) => Err(error),
    }
}

// The run whose journal this is, or the first bad line of the journal.
fn replayed(alloc: Global, script: &Script, journal: &Journal) -> Result<Run, ReplayError>
    requires { IsShort script.now }
    ensures said { IsAnswer (checked_said script.now journal.now) result }
    ensures read { (all : List (List ℕ)) → journal.now ≡ map (read_line script.now) all
        → IsAnswer (checked script.now all) result }
{
    read_all(alloc, script, journal)?.finish()
}

// Takes all lines of the journal, as they are written.
fn read_all(alloc: Global, script: &Script, journal: &Journal) -> Result<Reader, AllocError>
    requires { IsShort script.now }
    ensures script { IfOk result (λ reader. reader.script ≡ script.now) }
    ensures reader { IfOk result (λ reader. reader.reader ≡ reader_after script.now (map (written script.now) journal.now)) }
{
    let mut reader = Reader::new(alloc, script)?;
    for k in 0..journal.len() {
        let line = write_line(alloc, script, journal.line(k))?;
        reader.take(&line)?;
    }
    Ok(reader)
}
