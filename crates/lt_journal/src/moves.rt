// The lines of moves, as they are read fast.
ghost use Rattle.std.specs.Prelude.{◌≡◌, ◌≢◌, ◌∷◌, ◌<◌, ◌≤◌, codes, length, get_or, IfSome, IsTrue, unwrap_or};
ghost use Rattle.lt_text.specs.Text.{fields};
ghost use Rattle.lt_journal.specs.declared.line.Line.TheVariants.{Bad};
ghost use Rattle.lt_journal.specs.Grammar.{move_told, step_line, step_told, node_told, client_told, BeginsWithNumber, AreFirstDigits};

use crate::line::Line;
use crate::meaning::{node, node_below, step};
use lt_modes::Step;
use lt_script::Script;
use lt_text::{exact_number, next_field};

/// What stands after the word `move`, if that is the first word of the line, and not the last.
#[inline(always)]
pub(crate) fn after_move(line: &[u8]) -> Option<&[u8]>
    ensures { IfSome result (λ rest. fields line.now ≡ codes "move" ∷ fields rest.now) }
{
    if line.len() < 5
        || line[0] != b'm'
        || line[1] != b'o'
        || line[2] != b'v'
        || line[3] != b'e'
        || line[4] != b' '
    {
        return None;
    }
    let (_, rest) = line.split_at(5);
    Some(rest)
}

// The same of the word `act`.
#[inline(always)]
fn after_act(words: &[u8]) -> Option<&[u8]>
    ensures { IfSome result (λ rest. fields words.now ≡ codes "act" ∷ fields rest.now) }
{
    if words.len() < 4
        || words[0] != b'a'
        || words[1] != b'c'
        || words[2] != b't'
        || words[3] != b' '
    {
        return None;
    }
    let (_, rest) = words.split_at(4);
    Some(rest)
}

// The same of the word `take`.
#[inline(always)]
fn after_take(words: &[u8]) -> Option<&[u8]>
    ensures { IfSome result (λ rest. fields words.now ≡ codes "take" ∷ fields rest.now) }
{
    if words.len() < 5
        || words[0] != b't'
        || words[1] != b'a'
        || words[2] != b'k'
        || words[3] != b'e'
        || words[4] != b' '
    {
        return None;
    }
    let (_, rest) = words.split_at(5);
    Some(rest)
}

/// What a line says that has these words after the word `move`; none of a line that has none of the forms.
#[inline(always)]
pub(crate) fn move_line(script: &Script, words: &[u8]) -> Option<Line>
    ensures { unwrap_or result Bad ≡ move_told script.now (fields words.now) }
{
    let (clock, rest) = number_field(words)?;
    let (node, rest) = number_field(rest)?;
    step_line(script, clock, node, rest)
}

// The line of a move with this clock and this node that does what these words say.
#[inline(always)]
#[tactic(auto, using(crate::proofs::MoveLines::by_step))]
fn step_line(script: &Script, clock: u64, node: u64, words: &[u8]) -> Option<Line>
    ensures { unwrap_or result Bad ≡ step_line script.now clock node (fields words.now) }
{
    if node >= u64::from(script.nodes()) {
        return None;
    }
    let step = step_told(script, words)?;
    Some(Line::Move {
        clock,
        node: node as u8,
        step,
    })
}

// What these words say that a move does.
#[inline(always)]
#[tactic(auto, using(crate::proofs::MoveLines::take_told, crate::proofs::MoveLines::act_told))]
fn step_told(script: &Script, words: &[u8]) -> Option<Step>
    ensures { result ≡ step_told script.now (fields words.now) }
{
    if let Some(from) = after_take(words) {
        return node_told(script, from).map(Step::Take);
    }
    if let Some(client) = after_act(words) {
        return client_told(script, client).map(Step::Act);
    }
    let (verb, rest) = next_field(words);
    let (word, None) = next_field(rest?) else {
        return None;
    };
    step(script, verb, word)
}

// The node of the script that the only word names.
#[inline(always)]
fn node_told(script: &Script, words: &[u8]) -> Option<u8>
    ensures { result ≡ node_told script.now (fields words.now) }
{
    let (number, count) = first_digits(words);
    if count == words.len() && is_numeral(words, count) {
        return node_below(script, number);
    }
    let (word, None) = next_field(words) else {
        return None;
    };
    node(script, word)
}

// The client of the script that the only word names.
#[inline(always)]
fn client_told(script: &Script, words: &[u8]) -> Option<u16>
    ensures { result ≡ client_told script.now (fields words.now) }
{
    let (word, None) = next_field(words) else {
        return None;
    };
    script.client_number(word)
}

// The number that the first field is, and what stands after it; none where it is no number, or the last field.
#[inline(always)]
fn number_field(words: &[u8]) -> Option<(u64, &[u8])>
    ensures { BeginsWithNumber (fields words.now) result }
{
    let (number, count) = first_digits(words);
    if count < words.len() && words[count] == b' ' && is_numeral(words, count) {
        let (_, rest) = words.split_at(count + 1);
        return Some((number, rest));
    }
    any_number_field(words)
}

// The same of a number of any length.
fn any_number_field(words: &[u8]) -> Option<(u64, &[u8])>
    ensures { BeginsWithNumber (fields words.now) result }
{
    let (word, rest) = next_field(words);
    let number = exact_number(word)?;
    Some((number, rest?))
}

// Of so many digits at the front: whether there are some, and the first of several isn't 0.
#[inline(always)]
fn is_numeral(words: &[u8], count: usize) -> bool
    requires { count ≤ length words.now }
    ensures some { IsTrue result → 0 < count }
    ensures leading { IsTrue result → 1 < count → get_or words.now 0 0 ≢ 48 }
{
    if count == 0 {
        return false;
    }
    count == 1 || words[0] != b'0'
}

// The number of the first digits, nineteen at most, and how many they are.
#[inline(always)]
fn first_digits(words: &[u8]) -> (u64, usize)
    ensures { AreFirstDigits words.now result.1 result.0 }
{
    let end = words.len().min(19);
    let mut number: u64 = 0;
    let mut count = 0;
    while count < end && words[count].is_ascii_digit() {
        number = number * 10 + u64::from(words[count] - b'0');
        count += 1;
    }
    (number, count)
}
