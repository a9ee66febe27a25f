ghost use Rattle.std.specs.Prelude.{◌≡◌, [], ◌∷◌, ◌++◌, None, slice_get, IsTrue, OnOk, IfOk, IfSome, IsFalse, false, ◌<◌, ◌+◌, ◌^◌};
ghost use Rattle.std.specs.Str.{bytes_eq};
ghost use Rattle.lt_journal.specs.RunLines.{first_lines, line_of_event, closing_lines};
ghost use Rattle.lt_law_journals.specs.Checking.{closing_at_rest, written, is_complete};
ghost use Rattle.lt_modes.specs.Script.{ScriptData};
ghost use Rattle.lt_spec.specs.Script.{IsScript};
ghost use Rattle.lt_checker.specs.Due.{last_events, due_lines};

use lt_journal::{Line, Text, Wording, closing_lines, event_line, shown_event, write_words};
use lt_merge::Run;
use lt_modes::Event;
use lt_script::Script;
use lt_world::World;
use std::alloc::{AllocError, Global};
use std::collections::VecDeque;

/// The lines that must come before any further move: those of the last move's events, of which the first ones were
/// told, and then the later ones. The lines of events are no list: each is written when its turn comes.
#[derive(Drop)]
pub(crate) struct Due {
    pub(crate) told: usize,
    pub(crate) later: VecDeque<Line>,
    // The words of the last line that was due.
    pub(crate) words: Text,
}

impl Due {
    /// Whether no line is due after this run.
    pub(crate) fn is_none(&self, run: &Run) -> bool
        ensures none { (script : ScriptData) → IsTrue result
            → due_lines script run.now.entries self.now.told self.now.later.items ≡ [] }
        ensures some { (script : ScriptData) → IsFalse result
            → is_complete script run.now.entries (due_lines script run.now.entries self.now.told self.now.later.items) ≡ false }
    {
        if let Some(_event) = last_event(run, self.told) {
            return false;
        }
        self.later.is_empty()
    }
}

/// The event of the last move at place `k`.
pub(crate) fn last_event(run: &Run, k: usize) -> Option<Event>
    ensures event { result ≡ slice_get (last_events run.now.entries) k }
    ensures few { IfSome result (λ event. k + 1 < 2 ^ 64) }
{
    let moves = run.len();
    if moves == 0 {
        return None;
    }
    let events = run.events(moves - 1);
    if k < events.len() {
        Some(events[k])
    } else {
        None
    }
}

/// Whether the line is that of the event, which is written into `words`, whose memory is kept from line to line.
pub(crate) fn is_event_line(
    words: &mut Text,
    wording: &Wording,
    event: Event,
    line: &[u8],
) -> Result<bool, AllocError>
    ensures { IfOk result (λ same. same ≡ bytes_eq line.now (written wording.now (line_of_event wording.now.version event))) }
{
    words.clear();
    event_line(
        words,
        wording,
        shown_event(wording.script().version(), event),
    )?;
    let text = words.bytes();
    let (words, _) = text.split_at(text.len() - 1);
    Ok(line == words)
}

/// What stands after the line of the event and its line end, if the bytes begin with these. Where memory is refused,
/// that isn't known.
#[inline(always)]
pub(crate) fn after_event_line<'a>(
    words: &mut Text,
    wording: &Wording,
    event: Event,
    bytes: &'a [u8],
) -> Option<&'a [u8]>
    ensures { IfSome result (λ later. bytes.now
        ≡ written wording.now (line_of_event wording.now.version event) ++ 10 ∷ later.now) }
{
    words.clear();
    let shown = shown_event(wording.script().version(), event);
    let Ok(()) = event_line(words, wording, shown) else {
        return None;
    };
    let text = words.bytes();
    if bytes.len() < text.len() {
        return None;
    }
    let (first, later) = bytes.split_at(text.len());
    if first == text { Some(later) } else { None }
}

/// Whether the line is this one, which is written into `words`.
pub(crate) fn is_line(
    words: &mut Text,
    wording: &Wording,
    due: Line,
    line: &[u8],
) -> Result<bool, AllocError>
    ensures { IfOk result (λ same. same ≡ bytes_eq line.now (written wording.now due)) }
{
    words.clear();
    write_words(words, wording.script(), due)?;
    Ok(line == words.bytes())
}

// Adds a last line.
fn push(due: &mut VecDeque<Line>, line: Line) -> Result<(), AllocError>
    ensures { OnOk result (due.new.items ≡ due.old.items ++ line ∷ []) }
{
    // A list of lines grows only where the prover meets the type of events, so this takes one apart.
    match line {
        Line::Event(event) => due.push_back(Line::Event(event))?,
        other => due.push_back(other)?,
    }
    Ok(())
}

/// Adds the line before all moves, where the script has version 2 or 3.
pub(crate) fn push_first(due: &mut VecDeque<Line>, script: &Script) -> Result<(), AllocError>
    ensures lines { OnOk result (due.new.items ≡ due.old.items ++ first_lines script.now.version) }
    ensures is_script { IsScript script.now }
{
    match script.version() {
        1 => Ok(()),
        2 => push(due, Line::Version2),
        _ => push(due, Line::Version3),
    }
}

// Adds these lines.
fn push_all(due: &mut VecDeque<Line>, lines: &[Line]) -> Result<(), AllocError>
    ensures { OnOk result (due.new.items ≡ due.old.items ++ lines.now) }
{
    for line in lines {
        push(due, *line)?;
    }
    Ok(())
}

/// Adds the closing lines, where the world is at rest.
#[inline(always)]
pub(crate) fn push_closing(
    alloc: Global,
    due: &mut VecDeque<Line>,
    script: &Script,
    world: &World,
) -> Result<(), AllocError>
    requires { world.now.script ≡ script.now }
    ensures { OnOk result (due.new.items ≡ due.old.items ++ closing_at_rest script.now world.now.run) }
{
    if world.at_rest() {
        push_rest(alloc, due, script, world.run())?;
    }
    Ok(())
}

// Adds the closing lines of a run.
#[inline(never)]
fn push_rest(
    alloc: Global,
    due: &mut VecDeque<Line>,
    script: &Script,
    run: &Run,
) -> Result<(), AllocError>
    ensures { OnOk result (due.new.items ≡ due.old.items ++ closing_lines script.now run.now.entries None) }
{
    let lines = closing_lines(alloc, script, run)?;
    push_all(due, &lines)?;
    Ok(())
}
