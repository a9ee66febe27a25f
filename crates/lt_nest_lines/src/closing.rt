ghost use Rattle.std.specs.Prelude.{◌≡◌, ◌<◌, ◌++◌, ◌∷◌, [], length, decimal, OnOk};
ghost use Rattle.lt_nest_lines.specs.Written.{each_below, held_count_line, held_text_in_set, held_text_of, wish_line, waiting_text_of, last_line, closing_text};

use crate::input::Input;
use crate::play::Play;
use crate::words::{push_ask, push_lock_words, push_text};
use lt_modes::{MODES, Mode};
use lt_text::push_number;
use std::alloc::AllocError;

/// Writes the closing lines: the locks, the transactions that wait, and the number of lines.
pub(crate) fn push_closing(out: &mut Vec<u8>, input: &Input, play: &Play) -> Result<(), AllocError>
    requires { length play.now.nest.sets ≡ length input.now.sets }
    ensures { OnOk result (out.new.items ≡ out.old.items ++ closing_text input.now play.now) }
{
    push_held(out, input, play)?;
    push_waiting(out, input, play)?;
    push_count(out, input)
}

// Writes the lines of all locks, by transaction.
fn push_held(out: &mut Vec<u8>, input: &Input, play: &Play) -> Result<(), AllocError>
    requires { length play.now.nest.sets ≡ length input.now.sets }
    ensures { OnOk result (out.new.items ≡ out.old.items
        ++ each_below (length input.now.transactions) (held_text_of input.now play.now)) }
{
    for transaction in 0..input.transactions() {
        push_held_by(out, input, play, transaction)?;
    }
    Ok(())
}

// Writes the lines of the transaction's locks, by set.
fn push_held_by(
    out: &mut Vec<u8>,
    input: &Input,
    play: &Play,
    transaction: u16,
) -> Result<(), AllocError>
    requires { length play.now.nest.sets ≡ length input.now.sets }
    ensures { OnOk result (out.new.items ≡ out.old.items ++ held_text_of input.now play.now transaction) }
{
    for set in 0..input.sets() {
        push_held_in_set(out, input, play, transaction, set)?;
    }
    Ok(())
}

// Writes the lines of the transaction's locks in a set, by mode.
fn push_held_in_set(
    out: &mut Vec<u8>,
    input: &Input,
    play: &Play,
    transaction: u16,
    set: u8,
) -> Result<(), AllocError>
    requires { set < length play.now.nest.sets }
    ensures { OnOk result (out.new.items ≡ out.old.items ++ held_text_in_set input.now play.now transaction set) }
{
    for mode in &MODES {
        let count = play.held(transaction, set, *mode);
        push_held_line(out, input, transaction, set, *mode, count)?;
    }
    Ok(())
}

// Writes the line of so many locks, if there are some: `held T S MODE COUNT`.
fn push_held_line(
    out: &mut Vec<u8>,
    input: &Input,
    transaction: u16,
    set: u8,
    mode: Mode,
    count: u32,
) -> Result<(), AllocError>
    ensures { OnOk result (out.new.items ≡ out.old.items ++ held_count_line input.now transaction set mode count) }
{
    if count == 0 {
        return Ok(());
    }
    push_text(out, "held")?;
    let name = input.transaction_name(usize::from(transaction));
    push_lock_words(out, name, input.set_name(set), mode)?;
    push_last_number(out, count)
}

// Writes a space, the number and the line end.
fn push_last_number(out: &mut Vec<u8>, number: u32) -> Result<(), AllocError>
    ensures { OnOk result (out.new.items ≡ out.old.items ++ (32 ∷ decimal number) ++ 10 ∷ []) }
{
    push_text(out, " ")?;
    push_number(out, u64::from(number))?;
    push_text(out, "\n")
}

// Writes the lines of the transactions that wait, in order.
fn push_waiting(out: &mut Vec<u8>, input: &Input, play: &Play) -> Result<(), AllocError>
    ensures { OnOk result (out.new.items ≡ out.old.items
        ++ each_below (length input.now.transactions) (waiting_text_of input.now play.now)) }
{
    for transaction in 0..input.transactions() {
        push_waiting_line(out, input, transaction, play.waiting(transaction))?;
    }
    Ok(())
}

// Writes the line of what a transaction waits for, if it waits: `waiting T S MODE`.
fn push_waiting_line(
    out: &mut Vec<u8>,
    input: &Input,
    transaction: u16,
    wish: Option<(u8, Mode)>,
) -> Result<(), AllocError>
    ensures { OnOk result (out.new.items ≡ out.old.items ++ wish_line input.now transaction wish) }
{
    let Some((set, mode)) = wish else {
        return Ok(());
    };
    let name = input.transaction_name(usize::from(transaction));
    push_ask(out, "waiting", name, input.set_name(set), mode)
}

// Writes the last line: `end COUNT`.
fn push_count(out: &mut Vec<u8>, input: &Input) -> Result<(), AllocError>
    ensures { OnOk result (out.new.items ≡ out.old.items ++ last_line input.now) }
{
    push_text(out, "end")?;
    push_last_number(out, input.lines())
}
