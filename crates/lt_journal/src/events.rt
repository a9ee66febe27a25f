ghost use Rattle.std.specs.Prelude.{◌≡◌, ◌++◌, [], ◌∷◌, OnOk, if◌then◌else◌};
ghost use Rattle.std.specs.List.{flat_map};
ghost use Rattle.lt_journal.specs.declared.line.Line.TheVariants.{Move as MoveLine};
ghost use Rattle.lt_text.specs.Text.{after_space, spaced};
ghost use Rattle.lt_journal.specs.RunLines.{line_words, step_words, lock_words, drop_words, letter_words, event_words, further_words, words_of_modes, member_words, shown_event};
ghost use Rattle.lt_modes.specs.FiveModes.{shown_in};

use crate::names::{client_name, set_name};
use crate::text::Text;
use lt_modes::{Event, MODES, Mode, ModeSet, Step};
use lt_script::Script;
use std::alloc::AllocError;

/// Writes the words of a move's line.
pub fn words_of_move(
    text: &mut Text,
    script: &Script,
    clock: u64,
    node: u8,
    step: Step,
) -> Result<(), AllocError>
    ensures { OnOk result (text.new ≡ text.old ++ spaced (line_words script.now (MoveLine clock node step))) }
{
    text.first_word("move")?;
    text.number(clock)?;
    text.number(u64::from(node))?;
    step_words(text, script, step)
}

// Writes the words that say what a move does.
fn step_words(text: &mut Text, script: &Script, step: Step) -> Result<(), AllocError>
    ensures { OnOk result (text.new ≡ text.old ++ flat_map after_space (step_words script.now step)) }
{
    match step {
        Step::Act(client) => {
            text.word(b"act")?;
            text.word(client_name(script, client))
        }
        Step::Take(from) => {
            text.word(b"take")?;
            text.number(u64::from(from))
        }
    }
}

/// Writes the words of an event's line.
pub fn words_of_event(text: &mut Text, script: &Script, event: Event) -> Result<(), AllocError>
    ensures { OnOk result (text.new ≡ text.old ++ spaced (event_words script.now event)) }
{
    first_words(text, script, &event)?;
    further_words(text, script, event)
}

// Writes the words that name a lock, a drop or a letter, after which the further ones are left.
fn first_words(text: &mut Text, script: &Script, event: &Event) -> Result<(), AllocError>
    ensures { OnOk result (text.new ++ flat_map after_space (further_words script.now event.now)
        ≡ text.old ++ spaced (event_words script.now event.now)) }
{
    match *event {
        Event::Grant { client, set, mode } => lock(text, script, b"grant", client, set, mode),
        Event::Wait { client, set, mode } => lock(text, script, b"wait", client, set, mode),
        Event::Try {
            client,
            set,
            mode,
            ..
        } => lock(text, script, b"try", client, set, mode),
        Event::Unlock { client, set, mode } => lock(text, script, b"unlock", client, set, mode),
        Event::NotHeld { client, set, mode } => lock(text, script, b"not_held", client, set, mode),
        Event::Change {
            client,
            set,
            gives_up,
            ..
        } => lock(text, script, b"change", client, set, gives_up),
        Event::DropAll {
            client,
            other,
            set,
            ..
        } => drop_words(text, script, "drop", client, other, set),
        Event::Busy { client, other, set } => drop_words(text, script, "busy", client, other, set),
        Event::Withdraw {
            client,
            other,
            set,
            ..
        } => drop_words(text, script, "withdraw", client, other, set),
        Event::Withdrawn { client, set, mode } => {
            lock(text, script, b"withdrawn", client, set, mode)
        }
        Event::Void { client, set, mode } => lock(text, script, b"void", client, set, mode),
        Event::Withheld { client, set, mode } => lock(text, script, b"withheld", client, set, mode),
        Event::Copy { set, to, .. } => set_and_node(text, script, "copy", set, to),
        Event::Freeze { set, to, .. } => set_and_node(text, script, "freeze", set, to),
        Event::Token { set, to, .. } => set_and_node(text, script, "token", set, to),
    }
}

// Writes the words of an event's line after those that name a lock, a drop or a letter.
fn further_words(text: &mut Text, script: &Script, event: Event) -> Result<(), AllocError>
    ensures { OnOk result (text.new ≡ text.old ++ flat_map after_space (further_words script.now event)) }
{
    match event {
        Event::Try { got, .. } | Event::Withdraw { got, .. } => {
            text.word(if got { b"true" } else { b"false" })
        }
        Event::Change { mode, .. } => text.word(mode.word().as_bytes()),
        Event::DropAll { count, .. } => text.number(count),
        Event::Copy { client, mode, .. } => {
            text.word(client_name(script, client))?;
            text.word(mode.word().as_bytes())
        }
        Event::Freeze { number, modes, .. } => {
            text.number(number)?;
            words_of_modes(text, modes)
        }
        Event::Token { epoch, .. } => text.number(epoch),
        Event::Grant { .. }
        | Event::Wait { .. }
        | Event::Unlock { .. }
        | Event::NotHeld { .. }
        | Event::Busy { .. }
        | Event::Withdrawn { .. }
        | Event::Void { .. }
        | Event::Withheld { .. } => Ok(()),
    }
}

/// Writes the words of a line that names a client, a set and a mode.
pub fn lock(
    text: &mut Text,
    script: &Script,
    first: &[u8],
    client: u16,
    set: u32,
    mode: Mode,
) -> Result<(), AllocError>
    ensures { OnOk result (text.new ≡ text.old ++ spaced (lock_words script.now first.now client set mode)) }
{
    text.first(first)?;
    text.word(client_name(script, client))?;
    text.word(set_name(script, set))?;
    text.word(mode.word().as_bytes())
}

// Writes the words of a line that names two clients and a set.
fn drop_words(
    text: &mut Text,
    script: &Script,
    first: &str,
    client: u16,
    other: u16,
    set: u32,
) -> Result<(), AllocError>
    ensures { OnOk result (text.new ≡ text.old ++ spaced (drop_words script.now first.now client other set)) }
{
    text.first_word(first)?;
    text.word(client_name(script, client))?;
    text.word(client_name(script, other))?;
    text.word(set_name(script, set))
}

/// Writes the words of a line that names a set and the node that its token, or a letter about it, goes to.
pub(crate) fn set_and_node(
    text: &mut Text,
    script: &Script,
    first: &str,
    set: u32,
    to: u8,
) -> Result<(), AllocError>
    ensures { OnOk result (text.new ≡ text.old ++ spaced (letter_words script.now first.now set to)) }
{
    text.first_word(first)?;
    text.word(set_name(script, set))?;
    text.number(u64::from(to))
}

/// Writes the words of a set of modes in order, or `none`.
pub(crate) fn words_of_modes(text: &mut Text, modes: ModeSet) -> Result<(), AllocError>
    ensures { OnOk result (text.new ≡ text.old ++ flat_map after_space (words_of_modes modes)) }
{
    if modes.is_empty() {
        return text.word(b"none");
    }
    for mode in &MODES {
        word_of_member(text, modes, *mode)?;
    }
    Ok(())
}

// Writes the word of the mode, if it is in the set.
fn word_of_member(text: &mut Text, modes: ModeSet, mode: Mode) -> Result<(), AllocError>
    ensures { OnOk result (text.new ≡ text.old ++ member_words modes mode) }
{
    if modes.has(mode) {
        text.word(mode.word().as_bytes())
    } else {
        Ok(())
    }
}

/// The event as a journal of this version shows it: a freeze in version 1 without the sixth mode.
pub fn shown_event(version: u8, event: Event) -> Event
    ensures { result ≡ shown_event version event }
{
    match event {
        Event::Freeze {
            set,
            to,
            number,
            modes,
        } => Event::Freeze {
            set,
            to,
            number,
            modes: shown_in(version, modes),
        },
        other => other,
    }
}

// The set as a journal of this version shows it.
fn shown_in(version: u8, modes: ModeSet) -> ModeSet
    ensures { result ≡ shown_in version modes }
{
    if version == 1 { modes.of_five() } else { modes }
}
