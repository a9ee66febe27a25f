ghost use Rattle.std.specs.Prelude.{◌≡◌, ◌++◌, ◌∷◌, [], codes, OnOk};
ghost use Rattle.lt_text.specs.Text.{each_after_space};
ghost use Rattle.lt_modes.specs.Modes.{word_of};
ghost use Rattle.lt_nest_lines.specs.Play.{line_of_words, begin_answer_words, lock_answer_words, try_answer_words, end_answer_words};

use lt_modes::Mode;
use lt_nest::{Asked, Ended};
use std::alloc::AllocError;

/// Writes the line that answers a begin of the transaction.
pub(crate) fn push_begin(
    out: &mut Vec<u8>,
    begun: bool,
    transaction: &[u8],
    parent: &[u8],
) -> Result<(), AllocError>
    ensures { OnOk result (out.new.items ≡ out.old.items
        ++ line_of_words (begin_answer_words begun transaction.now parent.now)) }
{
    if begun {
        push_short(out, "begin", transaction)
    } else {
        push_short(out, "not_open", parent)
    }
}

/// Writes the line that answers a lock of the transaction.
pub(crate) fn push_lock(
    out: &mut Vec<u8>,
    answer: Asked,
    transaction: &[u8],
    set: &[u8],
    mode: Mode,
) -> Result<(), AllocError>
    ensures { OnOk result (out.new.items ≡ out.old.items
        ++ line_of_words (lock_answer_words answer transaction.now set.now (word_of mode))) }
{
    match answer {
        Asked::Granted => push_ask(out, "grant", transaction, set, mode),
        Asked::NotOpen => push_short(out, "not_open", transaction),
        Asked::Busy => push_short(out, "busy", transaction),
        Asked::Waits | Asked::False => push_ask(out, "wait", transaction, set, mode),
    }
}

/// Writes the line that answers a try of the transaction.
pub(crate) fn push_try(
    out: &mut Vec<u8>,
    answer: Asked,
    transaction: &[u8],
    set: &[u8],
    mode: Mode,
) -> Result<(), AllocError>
    ensures { OnOk result (out.new.items ≡ out.old.items
        ++ line_of_words (try_answer_words answer transaction.now set.now (word_of mode))) }
{
    match answer {
        Asked::Granted => push_tried(out, transaction, set, mode, "true"),
        Asked::NotOpen => push_short(out, "not_open", transaction),
        Asked::Busy => push_short(out, "busy", transaction),
        Asked::Waits | Asked::False => push_tried(out, transaction, set, mode, "false"),
    }
}

/// Writes the line that answers a commit or an abort of the transaction, of which this word tells that it is done.
pub(crate) fn push_end(
    out: &mut Vec<u8>,
    done: &str,
    answer: Ended,
    transaction: &[u8],
) -> Result<(), AllocError>
    ensures { OnOk result (out.new.items ≡ out.old.items
        ++ line_of_words (end_answer_words done.now answer transaction.now)) }
{
    match answer {
        Ended::Done => push_short(out, done, transaction),
        Ended::NotOpen => push_short(out, "not_open", transaction),
        Ended::Busy => push_short(out, "busy", transaction),
        Ended::HasChildren => push_short(out, "children", transaction),
    }
}

/// Writes a line of a transaction: `FIRST T`.
pub(crate) fn push_short(
    out: &mut Vec<u8>,
    first: &str,
    transaction: &[u8],
) -> Result<(), AllocError>
    ensures { OnOk result (out.new.items ≡ out.old.items ++ line_of_words (first.now ∷ transaction.now ∷ [])) }
{
    push_text(out, first)?;
    push_word(out, transaction)?;
    push_text(out, "\n")
}

/// Writes a line of a transaction, a set and a mode: `FIRST T S M`.
pub(crate) fn push_ask(
    out: &mut Vec<u8>,
    first: &str,
    transaction: &[u8],
    set: &[u8],
    mode: Mode,
) -> Result<(), AllocError>
    ensures { OnOk result (out.new.items ≡ out.old.items
        ++ line_of_words (first.now ∷ transaction.now ∷ set.now ∷ word_of mode ∷ [])) }
{
    push_text(out, first)?;
    push_lock_words(out, transaction, set, mode)?;
    push_text(out, "\n")
}

// Writes a line of a try: `try T S M GOT`.
fn push_tried(
    out: &mut Vec<u8>,
    transaction: &[u8],
    set: &[u8],
    mode: Mode,
    got: &str,
) -> Result<(), AllocError>
    ensures { OnOk result (out.new.items ≡ out.old.items
        ++ line_of_words (codes "try" ∷ transaction.now ∷ set.now ∷ word_of mode ∷ got.now ∷ [])) }
{
    push_text(out, "try")?;
    push_lock_words(out, transaction, set, mode)?;
    push_word(out, got.as_bytes())?;
    push_text(out, "\n")
}

/// Writes the words of a transaction, a set and a mode, with a space before each.
pub(crate) fn push_lock_words(
    out: &mut Vec<u8>,
    transaction: &[u8],
    set: &[u8],
    mode: Mode,
) -> Result<(), AllocError>
    ensures { OnOk result (out.new.items ≡ out.old.items
        ++ each_after_space (transaction.now ∷ set.now ∷ word_of mode ∷ [])) }
{
    push_word(out, transaction)?;
    push_word(out, set)?;
    push_word(out, mode.word().as_bytes())
}

/// Writes a space and the word.
pub(crate) fn push_word(out: &mut Vec<u8>, word: &[u8]) -> Result<(), AllocError>
    ensures { OnOk result (out.new.items ≡ out.old.items ++ 32 ∷ word.now) }
{
    push_text(out, " ")?;
    out.extend_from_slice(word)
}

/// Writes the text.
pub(crate) fn push_text(out: &mut Vec<u8>, text: &str) -> Result<(), AllocError>
    ensures { OnOk result (out.new.items ≡ out.old.items ++ text.now) }
{
    out.extend_from_slice(text.as_bytes())
}
