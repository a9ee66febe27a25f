ghost use Rattle.std.specs.Prelude.{◌≡◌, ◌<◌, ◌++◌, [], ◌∷◌, None, length, if◌then◌else◌, IfSome, OnOk, OnErr};
ghost use Rattle.std.specs.Prelude.{nat_lt};
ghost use Rattle.lt_nest.specs.Forest.{is_open_transaction, with_begun};
ghost use Rattle.lt_nest.specs.Kept.{nth_tally, with_wish, with_child, without_child, tallies_begun, tallies_asked};

use crate::answers::Asked;
use crate::forest::{Transaction, is_open};
use lt_modes::Mode;
use std::alloc::AllocError;

/// What is kept of a transaction, so that no call has to look for it.
#[derive(Clone, Copy)]
pub struct Tally {
    /// How many open transactions have it as their parent.
    pub children: u16,
    /// The set and the mode that it waits for.
    pub wish: Option<(u8, Mode)>,
}

/// What x waits for.
pub(crate) fn wish(transactions: &[Transaction], tallies: &[Tally], x: u16) -> Option<(u8, Mode)>
    requires { length tallies.now ≡ length transactions.now }
    ensures { result ≡ (if is_open_transaction transactions.now x then (nth_tally tallies.now x).wish else None) }
{
    if is_open(transactions, x) {
        tallies[x as usize].wish
    } else {
        None
    }
}

/// Whether x has an open child.
pub(crate) fn has_children(tallies: &[Tally], x: u16) -> bool
    ensures { result ≡ nat_lt 0 (nth_tally tallies.now x).children }
{
    let x = x as usize;
    x < tallies.len() && tallies[x].children > 0
}

/// Begins a transaction of which nothing is counted yet.
pub(crate) fn begin_under(
    transactions: &mut Vec<Transaction>,
    tallies: &mut Vec<Tally>,
    parent: Option<u16>,
) -> Result<(), AllocError>
    requires parent { IfSome parent (λ p. p < length tallies.old.items) }
    requires few { IfSome parent (λ p. (nth_tally tallies.old.items p).children < 65535) }
    ensures begun { OnOk result (transactions.new.items ≡ with_begun transactions.old.items parent) }
    ensures counted { OnOk result (tallies.new.items ≡ tallies_begun tallies.old.items parent) }
    ensures unchanged { OnErr result (transactions.new.items ≡ transactions.old.items) }
    ensures uncounted { OnErr result (tallies.new.items ≡ tallies.old.items) }
{
    transactions.reserve(1)?;
    tallies.push(Tally {
        children: 0,
        wish: None,
    })?;
    transactions.push_reserved(Transaction {
        parent,
        ended: false,
    });
    count_child(tallies, parent);
    Ok(())
}

// Counts an open child more of the parent, if there is one.
fn count_child(tallies: &mut Vec<Tally>, parent: Option<u16>)
    requires parent { IfSome parent (λ p. p < length tallies.old.items) }
    requires few { IfSome parent (λ p. (nth_tally tallies.old.items p).children < 65535) }
    ensures { tallies.new.items ≡ with_child tallies.old.items parent }
{
    if let Some(p) = parent {
        let tally = &mut tallies[p as usize];
        tally.children += 1;
    }
}

/// Counts an open child less of the parent, if there is one.
pub(crate) fn drop_child(tallies: &mut Vec<Tally>, parent: Option<u16>)
    requires parent { IfSome parent (λ p. p < length tallies.old.items) }
    requires some { IfSome parent (λ p. 0 < (nth_tally tallies.old.items p).children) }
    ensures { tallies.new.items ≡ without_child tallies.old.items parent }
{
    if let Some(p) = parent {
        let tally = &mut tallies[p as usize];
        tally.children -= 1;
    }
}

/// Notes what x waits for from now on, if it is a transaction.
pub(crate) fn set_wish(tallies: &mut Vec<Tally>, x: u16, wish: Option<(u8, Mode)>)
    ensures { tallies.new.items ≡ with_wish tallies.old.items x wish }
{
    let x = x as usize;
    if x < tallies.len() {
        tallies[x].wish = wish;
    }
}

/// Notes that x waits, if that is what it was told.
pub(crate) fn note_ask(tallies: &mut Vec<Tally>, x: u16, set: u8, mode: Mode, answer: Asked)
    ensures { tallies.new.items ≡ tallies_asked tallies.old.items x set mode answer }
{
    if let Asked::Waits = answer {
        set_wish(tallies, x, Some((set, mode)));
    }
}
