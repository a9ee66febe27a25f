// Commands of one mode in one set, in the form that most lines have: `lock S M`, `unlock S M` and `try S M`.
ghost use Rattle.std.specs.Prelude.{◌≡◌, ◌∷◌, Some, IfSome};
ghost use Rattle.lt_text.specs.Text.{words};
ghost use Rattle.lt_script.specs.Forms.{asked_of, CommandForm};
ghost use Rattle.lt_script.specs.OneMode.{verb_word, one_mode_seen, one_mode_command};
ghost use Rattle.lt_script.specs.Steps.{Resolves};

use crate::fault::Fault;
use crate::script::Script;
use lt_modes::{Command, Mode};
use lt_spec::MAX_COMMANDS;
use lt_text::next_word;

/// A verb that asks for one mode in one set.
#[derive(Clone, Copy)]
pub enum Verb {
    Lock,
    Try,
    Unlock,
}

/// What such a command asks for.
#[derive(Clone, Copy)]
pub struct OneMode<'a> {
    verb: Verb,
    set: &'a [u8],
    mode: Mode,
}

/// What is asked for, by what stands behind the client's name. None tells that it may have another form.
#[inline(always)]
pub fn one_mode<'a>(line: &'a [u8]) -> Option<OneMode<'a>>
    ensures { IfSome result (λ asked. asked_of (words line.now) ≡ Some (one_mode_seen asked)) }
{
    let Some((verb, rest)) = first_verb(line) else {
        return None;
    };
    let Some((set, mode)) = next_word(rest) else {
        return None;
    };
    let Some(mode) = Mode::from_word(mode) else {
        return None;
    };
    Some(OneMode { verb, set, mode })
}

// The verb that the line begins with, and what stands behind the space after it.
#[inline(always)]
fn first_verb(line: &[u8]) -> Option<(Verb, &[u8])>
    ensures { IfSome result (λ found. words line.now ≡ verb_word found.0 ∷ words found.1.now) }
{
    if let Some(rest) = line.strip_prefix(b"lock ") {
        Some((Verb::Lock, rest))
    } else if let Some(rest) = line.strip_prefix(b"unlock ") {
        Some((Verb::Unlock, rest))
    } else if let Some(rest) = line.strip_prefix(b"try ") {
        Some((Verb::Try, rest))
    } else {
        None
    }
}

/// The client and the command of a line, by the numbers of what it names, or the line's first fault.
#[inline(always)]
pub fn request_of_one_mode(
    script: &Script,
    client: &[u8],
    asked: OneMode<'_>,
) -> Result<(u16, Command), Fault>
    ensures { Resolves script.now (CommandForm client.now (one_mode_seen asked.entry)) result }
{
    let Some(client) = script.client_number(client) else {
        return Err(Fault::Unknown);
    };
    let Some(set) = script.set_number(asked.set) else {
        return Err(Fault::Unknown);
    };
    if script.commands() >= u64::from(MAX_COMMANDS) {
        return Err(Fault::Limit);
    }
    if script.version() == 1 && !asked.mode.is_of_five() {
        return Err(Fault::Mode);
    }
    Ok((client, command_of(asked.verb, set, asked.mode)))
}

/// The command with this verb.
#[inline(always)]
pub fn command_of(verb: Verb, set: u32, mode: Mode) -> Command
    ensures { result ≡ one_mode_command verb set mode }
{
    match verb {
        Verb::Lock => Command::Lock { set, mode },
        Verb::Try => Command::Try { set, mode },
        Verb::Unlock => Command::Unlock { set, mode },
    }
}
