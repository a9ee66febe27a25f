ghost use Rattle.std.specs.Prelude.{◌≡◌, ◌<◌, ◌≤◌, length, OnOk, IfSome};
ghost use Rattle.lt_nest_lines.specs.Input.{IsInput, AsksWithin, no_input, line_count, place_of, has_declared, is_new, with_declared_set, with_order, with_declared_transaction};
ghost use Rattle.lt_nest_lines.specs.Play.{name_at};
ghost use Rattle.lt_nest_lines.specs.declared.limits.TheConstants.{MAX_SETS, MAX_TRANSACTIONS, MAX_LINES};

use crate::name::{Name, name_at, place_of};
use crate::names::Names;
use crate::naming::is_name;
use crate::order::Order;
use lt_text::is;
use std::alloc::{AllocError, Global};
use std::marker::Model;

/// The sets and transactions that lines declare, and what the other lines order.
///
/// Sets and transactions have numbers from 0, as they are declared.
pub struct Input {
    sets: Vec<Name>,
    transactions: Names,
    orders: Vec<Order>,
}

impl Model for Input {
    ghost use Rattle.lt_nest_lines.specs.Input.{InputData, IsInput};

    ghost Value = { InputData };

    ghost view = { λ i. record { sets = i.sets.items; transactions = i.transactions; orders = i.orders.items } };

    ghost invariant = { λ i. IsInput (record { sets = i.sets.items; transactions = i.transactions; orders = i.orders.items }) };
}

// Written out, so that all places which let an input go call this.
impl Drop for Input {
    fn drop(self) {
        let Input {
            sets,
            transactions,
            orders,
        } = self;
        drop(sets);
        drop(transactions);
        drop(orders);
    }
}

impl Input {
    /// No line.
    pub fn new(alloc: Global) -> Input
        ensures { result ≡ no_input }
    {
        Input {
            sets: Vec::new(alloc),
            transactions: Names::new(alloc),
            orders: Vec::new(alloc),
        }
    }

    /// The number of sets.
    pub fn sets(&self) -> u8
        ensures sets { result ≡ length self.now.sets }
        ensures kept { IsInput self.now }
    {
        self.sets.len() as u8
    }

    /// The number of transactions.
    pub fn transactions(&self) -> u16
        ensures { result ≡ length self.now.transactions }
    {
        self.transactions.len() as u16
    }

    /// What the lines order.
    pub fn orders(&self) -> &[Order]
        ensures orders { result.now ≡ self.now.orders }
        ensures kept { IsInput self.now }
    {
        &self.orders
    }

    /// The number of lines.
    pub fn lines(&self) -> u32
        ensures count { result ≡ line_count self.now }
        ensures few { line_count self.now ≤ MAX_LINES }
    {
        (self.sets.len() + self.orders.len()) as u32
    }

    /// The name of the set; empty where there is none.
    pub fn set_name(&self, set: u8) -> &[u8]
        ensures { result.now ≡ name_at self.now.sets set }
    {
        name_at(&self.sets, usize::from(set))
    }

    /// The name of the transaction; empty where there is none.
    pub fn transaction_name(&self, transaction: usize) -> &[u8]
        ensures { result.now ≡ name_at self.now.transactions transaction }
    {
        self.transactions.name(transaction)
    }

    /// The number of the set with this name.
    pub fn set(&self, name: &[u8]) -> Option<u8>
        ensures number { result ≡ place_of self.now.sets name.now }
        ensures within { IfSome result (λ k. k < length self.now.sets) }
    {
        match place_of(&self.sets, name) {
            Some(k) => Some(k as u8),
            None => None,
        }
    }

    /// The number of the transaction with this name.
    pub fn transaction(&self, name: &[u8]) -> Option<u16>
        ensures { result ≡ place_of self.now.transactions name.now }
    {
        match self.transactions.place_of(name) {
            Some(k) => Some(k as u16),
            None => None,
        }
    }

    /// Whether the word may be declared.
    pub(crate) fn is_new(&self, word: &[u8]) -> bool
        ensures { result ≡ is_new self.now word.now }
    {
        is_name(word) && !is(word, "begin") && !self.is_declared(word)
    }

    fn is_declared(&self, word: &[u8]) -> bool
        ensures { result ≡ has_declared self.now word.now }
    {
        self.set(word).is_some() || self.transaction(word).is_some()
    }

    /// Adds a set.
    pub(crate) fn push_set(&mut self, alloc: Global, name: &[u8]) -> Result<(), AllocError>
        requires few { length self.old.sets < MAX_SETS }
        requires lines { line_count self.old < MAX_LINES }
        ensures { OnOk result (self.new ≡ with_declared_set self.old name.now) }
    {
        let name = Name::new(alloc, name)?;
        self.sets.push(name)?;
        Ok(())
    }

    /// Adds an order.
    pub(crate) fn push_order(&mut self, order: Order) -> Result<(), AllocError>
        requires lines { line_count self.old < MAX_LINES }
        requires within { AsksWithin (length self.old.sets) order }
        ensures { OnOk result (self.new ≡ with_order self.old order) }
    {
        self.orders.push(order)?;
        Ok(())
    }

    /// Adds a transaction, and the order that begins it.
    pub(crate) fn push_transaction(
        &mut self,
        alloc: Global,
        name: &[u8],
        order: Order,
    ) -> Result<(), AllocError>
        requires few { length self.old.transactions < MAX_TRANSACTIONS }
        requires lines { line_count self.old < MAX_LINES }
        requires within { AsksWithin (length self.old.sets) order }
        ensures { OnOk result (self.new ≡ with_declared_transaction self.old name.now order) }
    {
        self.transactions.push(alloc, name)?;
        self.orders.push(order)?;
        Ok(())
    }
}
