ghost use Rattle.std.specs.Prelude.{◌≡◌, ◌∷◌, Some, unwrap_or};
ghost use Rattle.lt_text.specs.Text.{fields};
ghost use Rattle.lt_journal.specs.declared.line.Line.TheVariants.{Bad};
ghost use Rattle.lt_journal.specs.Grammar.{read_line, line_of, of_third, version_line, line_of_two, line_of_four, line_of_five, line_of_copy, line_of_withdraw, line_of_freeze, void_line, lock_line, lock_and_line};

use crate::line::Line;
use crate::meaning::{bool_of, lock, modes, node, step};
use crate::moves::{after_move, move_line};
use lt_modes::{Event, Mode};
use lt_script::Script;
use lt_tally::Holding;
use lt_text::{exact_number, is, next_field};

/// What the line says, which stands here without its line end: what [`read`](crate::read) gives for it. It takes no
/// memory.
pub fn read_line(script: &Script, line: &[u8]) -> Line
    ensures { result ≡ read_line script.now line.now }
{
    match line_of(script, line) {
        Some(line) => line,
        None => Line::Bad,
    }
}

// What the line says; none of a line that has none of the forms.
fn line_of(script: &Script, line: &[u8]) -> Option<Line>
    ensures { unwrap_or result Bad ≡ read_line script.now line.now }
{
    if let Some(words) = after_move(line) {
        return move_line(script, words);
    }
    let (word, rest) = next_field(line);
    let (a, rest) = next_field(rest?);
    let Some(rest) = rest else {
        return line_of_two(script, word, a);
    };
    line_of_more(script, word, a, rest)
}

// A line of three words or more: the first two, and what stands after them.
#[inline(always)]
fn line_of_more(script: &Script, word: &[u8], a: &[u8], rest: &[u8]) -> Option<Line>
    ensures { unwrap_or result Bad ≡ line_of script.now (word.now ∷ a.now ∷ fields rest.now) }
{
    let (b, rest) = next_field(rest);
    let (c, rest) = next_field(rest?);
    let Some(rest) = rest else {
        return line_of_four(script, word, a, b, c);
    };
    if is(word, "freeze") {
        return freeze(script, a, b, c, rest);
    }
    let (d, None) = next_field(rest) else {
        return None;
    };
    line_of_five(script, word, a, b, c, d)
}

// A line of two words: `end COUNT`, `cut NODE` or a line `version`.
fn line_of_two(script: &Script, word: &[u8], a: &[u8]) -> Option<Line>
    ensures { unwrap_or result Bad ≡ line_of_two script.now word.now a.now }
{
    if is(word, "end") {
        let count = exact_number(a)?;
        Some(Line::End { count })
    } else if is(word, "cut") {
        let node = node(script, a)?;
        Some(Line::Cut { node })
    } else if is(word, "version") {
        version_line(script.version(), a)
    } else {
        None
    }
}

// A line `version 2`, and in a journal of version 3 also `version 3`.
fn version_line(version: u8, word: &[u8]) -> Option<Line>
    ensures { unwrap_or result Bad ≡ version_line version word.now }
{
    if is(word, "2") {
        Some(Line::Version2)
    } else if is(word, "3") {
        of_third(version, Line::Version3)
    } else {
        None
    }
}

// The line in a journal of version 3; none in one of another version.
fn of_third(version: u8, line: Line) -> Option<Line>
    ensures { unwrap_or result Bad ≡ of_third version line }
{
    if version == 3 { Some(line) } else { None }
}

// A line of four words.
fn line_of_four(script: &Script, word: &[u8], a: &[u8], b: &[u8], c: &[u8]) -> Option<Line>
    ensures { unwrap_or result Bad ≡ line_of_four script.now word.now a.now b.now c.now }
{
    if is(word, "busy") {
        let client = script.client_number(a)?;
        let other = script.client_number(b)?;
        let set = script.set_number(c)?;
        Some(Line::Event(Event::Busy { client, other, set }))
    } else if is(word, "token") {
        let set = script.set_number(a)?;
        let to = node(script, b)?;
        let epoch = exact_number(c)?;
        Some(Line::Event(Event::Token { set, to, epoch }))
    } else if is(word, "owner") {
        let set = script.set_number(a)?;
        let node = node(script, b)?;
        let epoch = exact_number(c)?;
        Some(Line::Owner { set, node, epoch })
    } else {
        lock_line(script.version(), word, lock(script, a, b, c)?)
    }
}

// A line of a word and a lock.
fn lock_line(version: u8, word: &[u8], lock: Holding) -> Option<Line>
    ensures { unwrap_or result Bad ≡ lock_line version word.now (Some lock) }
{
    let Holding { client, set, mode } = lock;
    if is(word, "grant") {
        Some(Line::Event(Event::Grant { client, set, mode }))
    } else if is(word, "wait") {
        Some(Line::Event(Event::Wait { client, set, mode }))
    } else if is(word, "unlock") {
        Some(Line::Event(Event::Unlock { client, set, mode }))
    } else if is(word, "not_held") {
        Some(Line::Event(Event::NotHeld { client, set, mode }))
    } else if is(word, "waiting") {
        Some(Line::Waiting { client, set, mode })
    } else {
        void_line(version, word, lock)
    }
}

// A line of such a word and a lock that is of journals of version 3 alone.
fn void_line(version: u8, word: &[u8], lock: Holding) -> Option<Line>
    ensures { unwrap_or result Bad ≡ void_line version word.now lock }
{
    let Holding { client, set, mode } = lock;
    if is(word, "withdrawn") {
        of_third(version, Line::Event(Event::Withdrawn { client, set, mode }))
    } else if is(word, "void") {
        of_third(version, Line::Event(Event::Void { client, set, mode }))
    } else if is(word, "withheld") {
        of_third(version, Line::Event(Event::Withheld { client, set, mode }))
    } else {
        None
    }
}

// A line of five words, but for a `freeze`.
fn line_of_five(
    script: &Script,
    word: &[u8],
    a: &[u8],
    b: &[u8],
    c: &[u8],
    d: &[u8],
) -> Option<Line>
    ensures { unwrap_or result Bad ≡ line_of_five script.now word.now a.now b.now c.now d.now }
{
    if is(word, "move") {
        let clock = exact_number(a)?;
        let node = node(script, b)?;
        let step = step(script, c, d)?;
        Some(Line::Move { clock, node, step })
    } else if is(word, "drop") {
        let client = script.client_number(a)?;
        let other = script.client_number(b)?;
        let set = script.set_number(c)?;
        let count = exact_number(d)?;
        Some(Line::Event(Event::DropAll {
            client,
            other,
            set,
            count,
        }))
    } else if is(word, "withdraw") {
        withdraw(script, a, b, c, d)
    } else if is(word, "copy") {
        copy(script, a, b, c, d)
    } else {
        lock_and_line(word, lock(script, a, b, c)?, d)
    }
}

// A line `withdraw CLIENT CLIENT SET true` or `false`, which is of journals of version 3 alone.
fn withdraw(script: &Script, a: &[u8], b: &[u8], c: &[u8], d: &[u8]) -> Option<Line>
    ensures { unwrap_or result Bad ≡ line_of_withdraw script.now a.now b.now c.now d.now }
{
    if script.version() != 3 {
        return None;
    }
    let client = script.client_number(a)?;
    let other = script.client_number(b)?;
    let set = script.set_number(c)?;
    let got = bool_of(d)?;
    Some(Line::Event(Event::Withdraw {
        client,
        other,
        set,
        got,
    }))
}

// A line `copy SET TO CLIENT MODE`.
fn copy(script: &Script, a: &[u8], b: &[u8], c: &[u8], d: &[u8]) -> Option<Line>
    ensures { unwrap_or result Bad ≡ line_of_copy script.now a.now b.now c.now d.now }
{
    let set = script.set_number(a)?;
    let to = node(script, b)?;
    let client = script.client_number(c)?;
    let mode = Mode::from_word(d)?;
    Some(Line::Event(Event::Copy {
        set,
        to,
        client,
        mode,
    }))
}

// A line of a word, a lock, and what is said of the lock.
fn lock_and_line(word: &[u8], lock: Holding, d: &[u8]) -> Option<Line>
    ensures { unwrap_or result Bad ≡ lock_and_line word.now (Some lock) d.now }
{
    let Holding { client, set, mode } = lock;
    if is(word, "try") {
        let got = bool_of(d)?;
        Some(Line::Event(Event::Try {
            client,
            set,
            mode,
            got,
        }))
    } else if is(word, "change") {
        let to = Mode::from_word(d)?;
        Some(Line::Event(Event::Change {
            client,
            set,
            gives_up: mode,
            mode: to,
        }))
    } else if is(word, "held") {
        let count = exact_number(d)?;
        Some(Line::Held {
            client,
            set,
            mode,
            count,
        })
    } else {
        None
    }
}

// A line `freeze SET TO NUMBER MODES`.
fn freeze(script: &Script, a: &[u8], b: &[u8], c: &[u8], words: &[u8]) -> Option<Line>
    ensures { unwrap_or result Bad ≡ line_of_freeze script.now a.now b.now c.now (fields words.now) }
{
    let set = script.set_number(a)?;
    let to = node(script, b)?;
    let number = exact_number(c)?;
    let modes = modes(words)?;
    Some(Line::Event(Event::Freeze {
        set,
        to,
        number,
        modes,
    }))
}
