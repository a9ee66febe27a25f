// The lines of a move and its events, as they are written fast.
ghost use Rattle.std.specs.Prelude.{◌≡◌, ◌≤◌, ◌++◌, [], ◌∷◌, List, OnOk, length};
ghost use Rattle.lt_journal.specs.declared.line.Line.TheVariants.{Move as MoveLine, Event as EventLine};
ghost use Rattle.lt_modes.specs.declared.event.Event.{Event as AnyEvent};
ghost use Rattle.lt_tally.specs.LockTable.{IsTallied};
ghost use Rattle.lt_journal.specs.RunLines.{line_text, line_of_event, letter_words};
ghost use Rattle.lt_text.specs.Text.{spaced};

use crate::events::{shown_event, words_of_event, words_of_modes};
use crate::text::Text;
use crate::wording::Wording;
use lt_modes::{Event, Move, Step};
use lt_tally::Tally;
use std::alloc::AllocError;

/// Writes the line of a move: `move CLOCK NODE act CLIENT` or `move CLOCK NODE take FROM`.
#[inline(always)]
pub(crate) fn move_line(text: &mut Text, wording: &Wording, made: Move) -> Result<(), AllocError>
    ensures { OnOk result (text.new ≡ text.old ++ line_text wording.now (MoveLine made.stamp.clock made.stamp.node made.step)) }
{
    match made.step {
        Step::Act(client) => wording.act_line(text, made.stamp.clock, made.stamp.node, client),
        Step::Take(from) => text.take_line(made.stamp.clock, made.stamp.node, from),
    }
}

/// Writes the line of an event as a journal of this version shows it, and takes the event into account.
#[inline(always)]
pub(crate) fn entry(
    text: &mut Text,
    tally: &mut Tally,
    wording: &Wording,
    version: u8,
    event: &Event,
) -> Result<(), AllocError>
    ensures text { OnOk result (text.new ≡ text.old ++ line_text wording.now (line_of_event version event.now)) }
    ensures tally { OnOk result ((events : List AnyEvent)
        → IsTallied wording.now tally.old events
        → IsTallied wording.now tally.new (events ++ event.now ∷ [])) }
{
    // What is made here can't overlap what is written, so neither the line nor the count asks for the variant again.
    match *event {
        Event::Grant { client, set, mode } => {
            plain_entry(text, tally, wording, &Event::Grant { client, set, mode })
        }
        Event::Wait { client, set, mode } => {
            plain_entry(text, tally, wording, &Event::Wait { client, set, mode })
        }
        Event::Unlock { client, set, mode } => {
            plain_entry(text, tally, wording, &Event::Unlock { client, set, mode })
        }
        Event::Token { set, to, epoch } => {
            plain_entry(text, tally, wording, &Event::Token { set, to, epoch })
        }
        _ => other_entry(text, tally, wording, version, event),
    }
}

// Writes the line of an event as it is, and takes the event into account.
#[inline(always)]
fn plain_entry(
    text: &mut Text,
    tally: &mut Tally,
    wording: &Wording,
    event: &Event,
) -> Result<(), AllocError>
    ensures text { OnOk result (text.new ≡ text.old ++ line_text wording.now (EventLine event.now)) }
    ensures tally { OnOk result ((events : List AnyEvent)
        → IsTallied wording.now tally.old events
        → IsTallied wording.now tally.new (events ++ event.now ∷ [])) }
{
    event_line(text, wording, *event)?;
    tally.apply(wording.script(), *event)?;
    Ok(())
}

// The same of any event, as a journal of this version shows it.
#[inline(never)]
fn other_entry(
    text: &mut Text,
    tally: &mut Tally,
    wording: &Wording,
    version: u8,
    event: &Event,
) -> Result<(), AllocError>
    ensures text { OnOk result (text.new ≡ text.old ++ line_text wording.now (line_of_event version event.now)) }
    ensures tally { OnOk result ((events : List AnyEvent)
        → IsTallied wording.now tally.old events
        → IsTallied wording.now tally.new (events ++ event.now ∷ [])) }
{
    other_line(text, wording, shown_event(version, *event))?;
    tally.apply(wording.script(), *event)?;
    Ok(())
}

/// Writes the line of an event. If memory runs out, a part of it may have been written.
#[inline(always)]
pub fn event_line(text: &mut Text, wording: &Wording, event: Event) -> Result<(), AllocError>
    ensures { OnOk result (text.new ≡ text.old ++ line_text wording.now (EventLine event)) }
{
    // A copy of a word in a local variable can't overlap what is written.
    match event {
        Event::Grant { client, set, mode } => {
            let first = *b"grant";
            wording.lock_line(text, &first, client, set, mode)
        }
        Event::Wait { client, set, mode } => {
            let first = *b"wait";
            wording.lock_line(text, &first, client, set, mode)
        }
        Event::Unlock { client, set, mode } => {
            let first = *b"unlock";
            wording.lock_line(text, &first, client, set, mode)
        }
        Event::Token { set, to, epoch } => wording.token_line(text, set, to, epoch),
        other => other_line(text, wording, other),
    }
}

// Writes the line of any event.
#[inline(never)]
fn other_line(text: &mut Text, wording: &Wording, event: Event) -> Result<(), AllocError>
    ensures { OnOk result (text.new ≡ text.old ++ line_text wording.now (EventLine event)) }
{
    match event {
        Event::Copy {
            set,
            to,
            client,
            mode,
        } => {
            letter(text, wording, "copy", set, to)?;
            wording.client(text, client)?;
            text.word(mode.word().as_bytes())?;
        }
        Event::Freeze {
            set,
            to,
            number,
            modes,
        } => {
            letter(text, wording, "freeze", set, to)?;
            text.number(number)?;
            words_of_modes(text, modes)?;
        }
        other => words_of_event(text, wording.script(), other)?,
    }
    text.end_line()
}

// Writes the words that say which letter about a set goes to which node.
#[inline(always)]
fn letter(
    text: &mut Text,
    wording: &Wording,
    first: &str,
    set: u32,
    to: u8,
) -> Result<(), AllocError>
    ensures { OnOk result (text.new ≡ text.old ++ spaced (letter_words wording.now first.now set to)) }
{
    text.first_word(first)?;
    wording.set(text, set)?;
    text.number(u64::from(to))
}
