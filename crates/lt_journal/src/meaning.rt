ghost use Rattle.std.specs.Prelude.{◌≡◌, Some, List, ◌∷◌};
ghost use Rattle.lt_modes.specs.declared.mode.Mode.{Mode as AnyMode};
ghost use Rattle.lt_modes.specs.Modes.{no_modes, modes_in_order};
ghost use Rattle.lt_text.specs.Text.{fields};
ghost use Rattle.lt_journal.specs.Grammar.{below, node_of, step_said, lock_of, bool_of, says_none, modes_of, with_words, words_left};

use lt_modes::{MODES, Mode, ModeSet, Step};
use lt_script::Script;
use lt_tally::Holding;
use lt_text::{exact_number, is, next_field};

/// The node of the script that the word names.
pub(crate) fn node(script: &Script, word: &[u8]) -> Option<u8>
    ensures { result ≡ node_of script.now word.now }
{
    node_below(script, exact_number(word)?)
}

/// The node of this number, if the script has it.
#[inline(always)]
pub(crate) fn node_below(script: &Script, node: u64) -> Option<u8>
    ensures { result ≡ below script.now.nodes (Some node) }
{
    if node < u64::from(script.nodes()) {
        Some(node as u8)
    } else {
        None
    }
}

/// What a move does: `act CLIENT` or `take FROM`.
pub(crate) fn step(script: &Script, verb: &[u8], word: &[u8]) -> Option<Step>
    ensures { result ≡ step_said script.now verb.now word.now }
{
    if is(verb, "act") {
        script.client_number(word).map(Step::Act)
    } else if is(verb, "take") {
        node(script, word).map(Step::Take)
    } else {
        None
    }
}

/// The lock of a client's name, a set's name and a mode's word.
pub(crate) fn lock(script: &Script, client: &[u8], set: &[u8], mode: &[u8]) -> Option<Holding>
    ensures { result ≡ lock_of script.now client.now set.now mode.now }
{
    let client = script.client_number(client)?;
    let set = script.set_number(set)?;
    let mode = Mode::from_word(mode)?;
    Some(Holding { client, set, mode })
}

/// Whether a `try` got its lock, or a `withdraw` gave something up.
pub(crate) fn bool_of(word: &[u8]) -> Option<bool>
    ensures { result ≡ bool_of word.now }
{
    if is(word, "true") {
        Some(true)
    } else if is(word, "false") {
        Some(false)
    } else {
        None
    }
}

/// The set of modes that these words are: `none`, or the words of its modes in order.
pub(crate) fn modes(words: &[u8]) -> Option<ModeSet>
    ensures { result ≡ modes_of (fields words.now) }
{
    if says_none(words) {
        return Some(ModeSet::empty());
    }
    let mut found = ModeSet::empty();
    let mut rest = Some(words);
    for mode in &MODES {
        (found, rest) = past_mode(found, rest, *mode);
    }
    if rest.is_some() {
        return None;
    }
    Some(found)
}

// Whether the words are the one word `none`.
fn says_none(words: &[u8]) -> bool
    ensures { result ≡ says_none (fields words.now) }
{
    let (word, rest) = next_field(words);
    rest.is_none() && is(word, "none")
}

// The modes found and the words that are left, after the mode's word if it stands here.
fn past_mode<'a>(found: ModeSet, words: Option<&'a [u8]>, mode: Mode) -> (ModeSet, Option<&'a [u8]>)
    ensures { (modes : List AnyMode) → with_words (mode ∷ modes) found (words_left words.entry)
        ≡ with_words modes result.0 (words_left result.1) }
{
    let Some(line) = words else {
        return (found, None);
    };
    let (word, rest) = next_field(line);
    if is(word, mode.word()) {
        (found.with(mode), rest)
    } else {
        (found, words)
    }
}
