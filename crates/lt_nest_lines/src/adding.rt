ghost use Rattle.std.specs.Prelude.{◌≡◌, ◌<◌, length, IfOk, IfSome, IsErr};
ghost use Rattle.std.specs.Option.{ForSome};
ghost use Rattle.lt_modes.specs.Modes.{mode_of};
ghost use Rattle.lt_nest_lines.specs.Forms.{form_data};
ghost use Rattle.lt_nest_lines.specs.Input.{AsksWithin, AddsLine, IsAdded, line_count, place_of, set_line, begin_line, order_line, begin_in, commit_order, abort_order, lock_order, try_order, input_after_form};
ghost use Rattle.lt_nest_lines.specs.declared.limits.TheConstants.{MAX_LINES};

use crate::form::Form;
use crate::input::Input;
use crate::limits::{MAX_SETS, MAX_TRANSACTIONS};
use crate::order::Order;
use lt_modes::Mode;
use std::alloc::{AllocError, Global};

/// Adds what a line of this form says, and tells whether it may be said. Memory is wanted only of a line that may.
pub(crate) fn add(input: &mut Input, alloc: Global, form: Form<'_>) -> Result<bool, AllocError>
    requires { line_count input.old < MAX_LINES }
    ensures taken { IfOk result (λ taken.
        AddsLine taken input.new (input_after_form input.old (form_data form.entry))) }
    ensures memory { IsErr result → IsAdded (input_after_form input.old (form_data form.entry)) }
{
    match form {
        Form::Set { set } => add_set(input, alloc, set),
        Form::Begin { transaction } => add_begin(input, alloc, transaction, Some(Order::Begin)),
        Form::BeginIn {
            transaction,
            parent,
        } => {
            let order = begin_in(input, parent);
            add_begin(input, alloc, transaction, order)
        }
        Form::Lock {
            transaction,
            set,
            mode,
        } => {
            let order = lock_order(input, transaction, set, mode);
            add_order(input, order)
        }
        Form::Try {
            transaction,
            set,
            mode,
        } => {
            let order = try_order(input, transaction, set, mode);
            add_order(input, order)
        }
        Form::Commit { transaction } => {
            let order = commit_order(input, transaction);
            add_order(input, order)
        }
        Form::Abort { transaction } => {
            let order = abort_order(input, transaction);
            add_order(input, order)
        }
    }
}

fn add_set(input: &mut Input, alloc: Global, name: &[u8]) -> Result<bool, AllocError>
    requires { line_count input.old < MAX_LINES }
    ensures taken { IfOk result (λ taken. AddsLine taken input.new (set_line input.old name.now)) }
    ensures memory { IsErr result → IsAdded (set_line input.old name.now) }
{
    if !input.is_new(name) || usize::from(input.sets()) >= MAX_SETS {
        return Ok(false);
    }
    input.push_set(alloc, name)?;
    Ok(true)
}

// Adds a transaction and the order that begins it, where there is one.
fn add_begin(
    input: &mut Input,
    alloc: Global,
    name: &[u8],
    order: Option<Order>,
) -> Result<bool, AllocError>
    requires lines { line_count input.old < MAX_LINES }
    requires within { ForSome order (AsksWithin (length input.old.sets)) }
    ensures taken { IfOk result (λ taken. AddsLine taken input.new (begin_line input.old name.now order)) }
    ensures memory { IsErr result → IsAdded (begin_line input.old name.now order) }
{
    let Some(order) = order else {
        return Ok(false);
    };
    if !input.is_new(name) || usize::from(input.transactions()) >= MAX_TRANSACTIONS {
        return Ok(false);
    }
    input.push_transaction(alloc, name, order)?;
    Ok(true)
}

// Adds an order, where there is one.
fn add_order(input: &mut Input, order: Option<Order>) -> Result<bool, AllocError>
    requires lines { line_count input.old < MAX_LINES }
    requires within { ForSome order (AsksWithin (length input.old.sets)) }
    ensures taken { IfOk result (λ taken. AddsLine taken input.new (order_line input.old order)) }
    ensures memory { IsErr result → IsAdded (order_line input.old order) }
{
    let Some(order) = order else {
        return Ok(false);
    };
    input.push_order(order)?;
    Ok(true)
}

fn begin_in(input: &Input, parent: &[u8]) -> Option<Order>
    ensures order { result ≡ begin_in (place_of input.now.transactions parent.now) }
    ensures within { IfSome result (AsksWithin (length input.now.sets)) }
{
    match input.transaction(parent) {
        Some(parent) => Some(Order::BeginIn { parent }),
        None => None,
    }
}

fn commit_order(input: &Input, transaction: &[u8]) -> Option<Order>
    ensures order { result ≡ commit_order (place_of input.now.transactions transaction.now) }
    ensures within { IfSome result (AsksWithin (length input.now.sets)) }
{
    match input.transaction(transaction) {
        Some(transaction) => Some(Order::Commit { transaction }),
        None => None,
    }
}

fn abort_order(input: &Input, transaction: &[u8]) -> Option<Order>
    ensures order { result ≡ abort_order (place_of input.now.transactions transaction.now) }
    ensures within { IfSome result (AsksWithin (length input.now.sets)) }
{
    match input.transaction(transaction) {
        Some(transaction) => Some(Order::Abort { transaction }),
        None => None,
    }
}

fn lock_order(input: &Input, transaction: &[u8], set: &[u8], mode: &[u8]) -> Option<Order>
    ensures order { result ≡ lock_order (place_of input.now.transactions transaction.now) (place_of input.now.sets set.now) (mode_of mode.now) }
    ensures within { IfSome result (AsksWithin (length input.now.sets)) }
{
    match (
        input.transaction(transaction),
        input.set(set),
        Mode::from_word(mode),
    ) {
        (Some(transaction), Some(set), Some(mode)) => Some(Order::Lock {
            transaction,
            set,
            mode,
        }),
        _ => None,
    }
}

fn try_order(input: &Input, transaction: &[u8], set: &[u8], mode: &[u8]) -> Option<Order>
    ensures order { result ≡ try_order (place_of input.now.transactions transaction.now) (place_of input.now.sets set.now) (mode_of mode.now) }
    ensures within { IfSome result (AsksWithin (length input.now.sets)) }
{
    match (
        input.transaction(transaction),
        input.set(set),
        Mode::from_word(mode),
    ) {
        (Some(transaction), Some(set), Some(mode)) => Some(Order::Try {
            transaction,
            set,
            mode,
        }),
        _ => None,
    }
}
