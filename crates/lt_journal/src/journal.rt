ghost use Rattle.std.specs.Prelude.{◌≡◌, ◌++◌, [], ◌∷◌, List, OnOk, IfOk};
ghost use Rattle.lt_modes.specs.declared.event.Event.{Event as AnyEvent};
ghost use Rattle.lt_spec.specs.Holdings.{lines_of};
ghost use Rattle.lt_tally.specs.LockTable.{IsTallied};
ghost use Rattle.lt_journal.specs.RunLines.{first_lines, event_lines, moves_lines, closing_lines, lines_text, text_of};

use crate::closing::lines_at_rest;
use crate::entries::{entry, move_line};
use crate::line::Line;
use crate::line_words::write_lines;
use crate::text::Text;
use crate::wording::Wording;
use lt_merge::Run;
use lt_modes::Event;
use lt_script::Script;
use lt_tally::{Tally, tally_of};
use std::alloc::{AllocError, Global};

// For how many bytes of a move and its events there is room at first. Where a run has more, the room grows.
const ROOM: usize = 48;

/// The text of a run: for each move its line and the lines of its events, and then the lines of a run at
/// rest, or those of a run that was cut at this node. The time that it takes is linear in the text, and in the number of
/// clients times that of sets.
pub fn write(
    alloc: Global,
    script: &Script,
    run: &Run,
    cut: Option<u8>,
) -> Result<Vec<u8>, AllocError>
    ensures { IfOk result (λ text. text.items ≡ text_of script.now run.now.entries cut) }
{
    let mut text = Text::with_room(alloc, run.len() as usize * ROOM)?;
    first_lines(&mut text, script)?;
    later_lines(alloc, &mut text, script, run, cut)?;
    Ok(text.into_bytes())
}

/// The text of the lines after a run's moves alone.
pub fn write_closing(
    alloc: Global,
    script: &Script,
    run: &Run,
    cut: Option<u8>,
) -> Result<Vec<u8>, AllocError>
    ensures { IfOk result (λ text. text.items ≡ lines_text script.now (closing_lines script.now run.now.entries cut)) }
{
    let mut text = Text::new(alloc);
    let tally = tally_of(alloc, script, run)?;
    push_closing(alloc, &mut text, script, &tally, run, cut)?;
    Ok(text.into_bytes())
}

// Writes the line before all moves, where there is one: `version 2` or `version 3`.
fn first_lines(text: &mut Text, script: &Script) -> Result<(), AllocError>
    ensures { OnOk result (text.new ≡ text.old ++ lines_text script.now (first_lines script.now.version)) }
{
    match script.version() {
        1 => Ok(()),
        2 => write_lines(text, script, &[Line::Version2]),
        _ => write_lines(text, script, &[Line::Version3]),
    }
}

// Writes the lines of all moves, and those after them.
fn later_lines(
    alloc: Global,
    text: &mut Text,
    script: &Script,
    run: &Run,
    cut: Option<u8>,
) -> Result<(), AllocError>
    ensures { OnOk result (text.new ≡ text.old ++ lines_text script.now
        (moves_lines script.now.version run.now.entries ++ closing_lines script.now run.now.entries cut)) }
{
    let mut tally = Tally::new(alloc, script)?;
    named_moves(alloc, text, &mut tally, script, run)?;
    push_closing(alloc, text, script, &tally, run, cut)
}

// Writes the lines of all moves with the names of the script, and takes their events into account.
fn named_moves(
    alloc: Global,
    text: &mut Text,
    tally: &mut Tally,
    script: &Script,
    run: &Run,
) -> Result<(), AllocError>
    requires { IsTallied script.now tally.old [] }
    ensures text { OnOk result (text.new ≡ text.old ++ lines_text script.now (moves_lines script.now.version run.now.entries)) }
    ensures tally { OnOk result (IsTallied script.now tally.new (lines_of run.now.entries)) }
{
    let wording = Wording::new(alloc, script)?;
    move_lines(text, tally, &wording, run)
}

// Writes the lines of all moves, and takes their events into account.
fn move_lines(
    text: &mut Text,
    tally: &mut Tally,
    wording: &Wording,
    run: &Run,
) -> Result<(), AllocError>
    requires { IsTallied wording.now tally.old [] }
    ensures text { OnOk result (text.new ≡ text.old ++ lines_text wording.now (moves_lines wording.now.version run.now.entries)) }
    ensures tally { OnOk result (IsTallied wording.now tally.new (lines_of run.now.entries)) }
{
    for k in 0..run.len() {
        move_line(text, wording, run.made(k))?;
        event_lines(text, tally, wording, run.events(k))?;
    }
    Ok(())
}

// Writes the lines of a move's events, and takes these into account.
#[inline(always)]
fn event_lines(
    text: &mut Text,
    tally: &mut Tally,
    wording: &Wording,
    events: &[Event],
) -> Result<(), AllocError>
    ensures text { OnOk result (text.new ≡ text.old ++ lines_text wording.now (event_lines wording.now.version events.now)) }
    ensures tally { OnOk result ((before : List AnyEvent)
        → IsTallied wording.now tally.old before
        → IsTallied wording.now tally.new (before ++ events.now)) }
{
    let version = wording.script().version();
    for event in events {
        entry(text, tally, wording, version, event)?;
    }
    Ok(())
}

// Writes the lines after the moves of a run that comes to this: those at rest, or `cut NODE`.
fn push_closing(
    alloc: Global,
    text: &mut Text,
    script: &Script,
    tally: &Tally,
    run: &Run,
    cut: Option<u8>,
) -> Result<(), AllocError>
    requires { IsTallied script.now tally.now (lines_of run.now.entries) }
    ensures { OnOk result (text.new ≡ text.old ++ lines_text script.now (closing_lines script.now run.now.entries cut)) }
{
    match cut {
        Some(node) => write_lines(text, script, &[Line::Cut { node }]),
        None => {
            let lines = lines_at_rest(alloc, script, tally, run)?;
            write_lines(text, script, &lines)
        }
    }
}
