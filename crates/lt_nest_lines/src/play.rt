ghost use Rattle.std.specs.Prelude.{◌≡◌, ◌<◌, ◌++◌, [], length, position, IfOk, OnOk, IfSome};
ghost use Rattle.lt_modes.specs.Modes.{word_of};
ghost use Rattle.lt_nest.specs.Calls.{has_parent, most_transactions, held, waiting};
ghost use Rattle.lt_nest.specs.Kept.{most_asked};
ghost use Rattle.lt_nest_lines.specs.Input.{AsksWithin};
ghost use Rattle.lt_nest_lines.specs.Play.{PlayState, first_play, nest_number_of, after_begin_under, after_call, with_grants_taken, after_order, line_of_words, name_at, next_name, answer_words, is_nest_number, owner_name, grant_words, grants_text, told_text, order_text};
ghost use Rattle.lt_nest_lines.specs.declared.order.Order.TheVariants as orders;

use crate::input::Input;
use crate::order::Order;
use crate::words::{push_ask, push_begin, push_end, push_lock, push_try};
use lt_modes::Mode;
use lt_nest::{BeginError, Nest};
use std::alloc::{AllocError, Global};
use std::marker::Model;

/// No transaction of a nest has this number.
pub const NOBODY: u16 = 65_535;

/// A nest, and the number in it of each transaction that was declared so far, where it was begun.
#[derive(Drop)]
pub(crate) struct Play {
    nest: Nest,
    numbers: Vec<Option<u16>>,
}

impl Model for Play {
    ghost use Rattle.lt_nest_lines.specs.Play.{PlayState};

    ghost Value = { PlayState };

    ghost view = { λ p. record { nest = p.nest; numbers = p.numbers.items } };
}

impl Play {
    /// Nothing was declared.
    pub fn new(alloc: Global, sets: u8) -> Result<Play, AllocError>
        ensures { IfOk result (λ play. play ≡ first_play sets) }
    {
        let nest = Nest::new(alloc, sets)?;
        Ok(Play {
            nest,
            numbers: Vec::new(alloc),
        })
    }

    /// The number in the nest of the transaction with this number among the declared ones.
    pub fn number(&self, transaction: u16) -> u16
        ensures { result ≡ nest_number_of self.now transaction }
    {
        let k = usize::from(transaction);
        if k < self.numbers.len() {
            self.numbers[k].unwrap_or(NOBODY)
        } else {
            NOBODY
        }
    }

    /// How many locks of the mode a transaction holds in the set.
    pub fn held(&self, transaction: u16, set: u8, mode: Mode) -> u32
        requires { set < length self.now.nest.sets }
        ensures { result ≡ held self.now.nest (nest_number_of self.now transaction) set mode }
    {
        let x = self.number(transaction);
        self.nest.held(x, set, mode)
    }

    /// The set and the mode that a transaction waits for.
    pub fn waiting(&self, transaction: u16) -> Option<(u8, Mode)>
        ensures { result ≡ waiting self.now.nest (nest_number_of self.now transaction) }
    {
        let x = self.number(transaction);
        self.nest.waiting(x)
    }

    /// Does what is ordered, and writes the answer and the grants that come of it. If memory runs out, it may have been
    /// done, and a part of the lines may have been written.
    pub fn follow(
        &mut self,
        input: &Input,
        order: Order,
        out: &mut Vec<u8>,
    ) -> Result<(), AllocError>
        requires within { AsksWithin (length self.old.nest.sets) order }
        requires asked { self.old.nest.asked < most_asked }
        requires few { length self.old.nest.transactions < most_transactions }
        ensures state { OnOk result (self.new ≡ after_order self.old order) }
        ensures text { OnOk result (out.new.items ≡ out.old.items ++ order_text input.now self.old order) }
    {
        self.call(input, order, out)?;
        self.tell_grants(input, out)
    }

    // Does what is ordered, and writes the answer.
    fn call(&mut self, input: &Input, order: Order, out: &mut Vec<u8>) -> Result<(), AllocError>
        requires within { AsksWithin (length self.old.nest.sets) order }
        requires asked { self.old.nest.asked < most_asked }
        requires few { length self.old.nest.transactions < most_transactions }
        ensures state { OnOk result (self.new ≡ after_call self.old order) }
        ensures text { OnOk result (out.new.items ≡ out.old.items ++ line_of_words (answer_words input.now self.old order)) }
    {
        match order {
            Order::Begin => self.begin_next(input, out),
            Order::BeginIn { parent } => self.begin_in(input, parent, out),
            Order::Lock {
                transaction,
                set,
                mode,
            } => self.lock(input, transaction, set, mode, out),
            Order::Try {
                transaction,
                set,
                mode,
            } => self.try_lock(input, transaction, set, mode, out),
            Order::Commit { transaction } => self.commit(input, transaction, out),
            Order::Abort { transaction } => self.abort(input, transaction, out),
        }
    }

    fn begin_next(&mut self, input: &Input, out: &mut Vec<u8>) -> Result<(), AllocError>
        requires { length self.old.nest.transactions < most_transactions }
        ensures state { OnOk result (self.new ≡ after_call self.old orders.Begin) }
        ensures text { OnOk result (out.new.items ≡ out.old.items ++ line_of_words (answer_words input.now self.old orders.Begin)) }
    {
        let name = input.transaction_name(self.numbers.len());
        let begun = self.begin(None)?;
        push_begin(out, begun, name, &[])
    }

    fn begin_in(&mut self, input: &Input, parent: u16, out: &mut Vec<u8>) -> Result<(), AllocError>
        requires { length self.old.nest.transactions < most_transactions }
        ensures state { OnOk result (self.new ≡ after_call self.old (orders.BeginIn parent)) }
        ensures text { OnOk result (out.new.items ≡ out.old.items ++ line_of_words (answer_words input.now self.old (orders.BeginIn parent))) }
    {
        let name = input.transaction_name(self.numbers.len());
        let x = self.number(parent);
        let begun = self.begin(Some(x))?;
        push_begin(
            out,
            begun,
            name,
            input.transaction_name(usize::from(parent)),
        )
    }

    // Begins a transaction, and tells whether it could.
    fn begin(&mut self, parent: Option<u16>) -> Result<bool, AllocError>
        requires { length self.old.nest.transactions < most_transactions }
        ensures begun { IfOk result (λ yes. yes ≡ has_parent self.old.nest parent) }
        ensures state { OnOk result (self.new ≡ after_begin_under self.old parent) }
    {
        match self.nest.begin(parent) {
            Ok(x) => {
                self.numbers.push(Some(x))?;
                Ok(true)
            }
            Err(BeginError::NoParent) => {
                self.numbers.push(None)?;
                Ok(false)
            }
            Err(BeginError::Full) => unreachable!(),
            Err(BeginError::Memory) => Err(AllocError),
        }
    }

    fn lock(
        &mut self,
        input: &Input,
        transaction: u16,
        set: u8,
        mode: Mode,
        out: &mut Vec<u8>,
    ) -> Result<(), AllocError>
        requires set { set < length self.old.nest.sets }
        requires asked { self.old.nest.asked < most_asked }
        ensures state { OnOk result (self.new ≡ after_call self.old (orders.Lock transaction set mode)) }
        ensures text { OnOk result (out.new.items ≡ out.old.items ++ line_of_words (answer_words input.now self.old (orders.Lock transaction set mode))) }
    {
        let x = self.number(transaction);
        let answer = self.nest.lock(x, set, mode)?;
        let name = input.transaction_name(usize::from(transaction));
        push_lock(out, answer, name, input.set_name(set), mode)
    }

    fn try_lock(
        &mut self,
        input: &Input,
        transaction: u16,
        set: u8,
        mode: Mode,
        out: &mut Vec<u8>,
    ) -> Result<(), AllocError>
        requires set { set < length self.old.nest.sets }
        requires asked { self.old.nest.asked < most_asked }
        ensures state { OnOk result (self.new ≡ after_call self.old (orders.Try transaction set mode)) }
        ensures text { OnOk result (out.new.items ≡ out.old.items ++ line_of_words (answer_words input.now self.old (orders.Try transaction set mode))) }
    {
        let x = self.number(transaction);
        let answer = self.nest.try_lock(x, set, mode)?;
        let name = input.transaction_name(usize::from(transaction));
        push_try(out, answer, name, input.set_name(set), mode)
    }

    fn commit(
        &mut self,
        input: &Input,
        transaction: u16,
        out: &mut Vec<u8>,
    ) -> Result<(), AllocError>
        ensures state { OnOk result (self.new ≡ after_call self.old (orders.Commit transaction)) }
        ensures text { OnOk result (out.new.items ≡ out.old.items ++ line_of_words (answer_words input.now self.old (orders.Commit transaction))) }
    {
        let x = self.number(transaction);
        let answer = self.nest.commit(x)?;
        let name = input.transaction_name(usize::from(transaction));
        push_end(out, "commit", answer, name)
    }

    fn abort(
        &mut self,
        input: &Input,
        transaction: u16,
        out: &mut Vec<u8>,
    ) -> Result<(), AllocError>
        ensures state { OnOk result (self.new ≡ after_call self.old (orders.Abort transaction)) }
        ensures text { OnOk result (out.new.items ≡ out.old.items ++ line_of_words (answer_words input.now self.old (orders.Abort transaction))) }
    {
        let x = self.number(transaction);
        let answer = self.nest.abort(x)?;
        let name = input.transaction_name(usize::from(transaction));
        push_end(out, "abort", answer, name)
    }

    fn tell_grants(&mut self, input: &Input, out: &mut Vec<u8>) -> Result<(), AllocError>
        ensures state { OnOk result (self.new ≡ with_grants_taken self.old) }
        ensures text { OnOk result (out.new.items ≡ out.old.items ++ told_text input.now self.old) }
    {
        push_grants(&mut self.nest, &self.numbers, input, out)
    }
}

// Takes the grants that were not told yet, and writes a line of each.
fn push_grants(
    nest: &mut Nest,
    numbers: &[Option<u16>],
    input: &Input,
    out: &mut Vec<u8>,
) -> Result<(), AllocError>
    ensures nest { OnOk result (nest.new ≡ record nest.old { grants = [] }) }
    ensures text { OnOk result (out.new.items ≡ out.old.items ++ grants_text input.now numbers.now nest.old.grants) }
{
    while let Some((x, set, mode)) = nest.next_grant() {
        push_grant(out, input, numbers, x, set, mode)?;
    }
    Ok(())
}

fn push_grant(
    out: &mut Vec<u8>,
    input: &Input,
    numbers: &[Option<u16>],
    x: u16,
    set: u8,
    mode: Mode,
) -> Result<(), AllocError>
    ensures { OnOk result (out.new.items ≡ out.old.items ++ line_of_words (grant_words input.now numbers.now (x, set, mode))) }
{
    push_ask(
        out,
        "grant",
        owner_name(input, numbers, x),
        input.set_name(set),
        mode,
    )
}

// The name of the transaction with this number in the nest.
fn owner_name<'a>(input: &'a Input, numbers: &[Option<u16>], x: u16) -> &'a [u8]
    ensures { result.now ≡ owner_name input.now numbers.now x }
{
    match owner(numbers, x) {
        Some(k) => input.transaction_name(k),
        None => &[],
    }
}

fn owner(numbers: &[Option<u16>], x: u16) -> Option<usize>
    ensures { result ≡ position (is_nest_number x) numbers.now }
{
    numbers.iter().position(|number| is_number(x, *number))
}

fn is_number(x: u16, number: Option<u16>) -> bool
    ensures { result ≡ is_nest_number x number }
{
    match number {
        Some(y) => y == x,
        None => false,
    }
}
