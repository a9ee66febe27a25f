ghost use Rattle.std.specs.Prelude.{◌≡◌, ◌<◌, ◌≤◌, length, filter, position, vec_len, IfSome};
ghost use Rattle.std.specs.List.{list_any};
ghost use Rattle.lt_nest.specs.declared.locks.Ask.{Ask as AnyAsk};
ghost use Rattle.lt_nest.specs.Forest.{is_open_transaction, MarksOwn, entry_conflicts, ask_conflicts};
ghost use Rattle.lt_nest.specs.Locks.{is_against, entry_is_against, ask_is_against, is_free_for, is_asked_by, first_free};
ghost use Rattle.lt_nest.specs.Calls.{holder_is_against, asker_is_against, waits_in};
ghost use Rattle.lt_nest.specs.Kept.{IsForest};

use crate::forest::{Transaction, is_open, is_own};
use crate::locks::{Ask, Entry};
use crate::marks::Marks;
use lt_modes::Mode;

pub(crate) fn is_free(
    transactions: &[Transaction],
    entries: &[Entry],
    earlier: &[Ask],
    x: u16,
    mode: Mode,
) -> bool
    requires { IsForest transactions.now }
    ensures { result ≡ is_free_for transactions.now entries.now earlier.now x mode }
{
    !entries_bar(transactions, entries, x, mode) && !asks_bar(transactions, earlier, x, mode)
}

// Whether an entry stands against the mode for x. Most often the first one that conflicts tells, without marks.
fn entries_bar(transactions: &[Transaction], entries: &[Entry], x: u16, mode: Mode) -> bool
    requires { IsForest transactions.now }
    ensures { result ≡ list_any (entry_is_against transactions.now x mode) entries.now }
{
    match entry_in_conflict(entries, mode) {
        Some(k) => {
            !is_own(transactions, entries[k].owner, x)
                || marked_entries_bar(transactions, entries, x, mode)
        }
        None => false,
    }
}

// The place of an entry that conflicts with the mode.
fn entry_in_conflict(entries: &[Entry], mode: Mode) -> Option<usize>
    ensures place { result ≡ position (entry_conflicts mode) entries.now }
    ensures within { IfSome result (λ k. k < length entries.now) }
{
    entries.iter().position(|entry| mode.conflicts(entry.mode))
}

// The same by marks: each entry takes a step then.
fn marked_entries_bar(transactions: &[Transaction], entries: &[Entry], x: u16, mode: Mode) -> bool
    requires { IsForest transactions.now }
    ensures { result ≡ list_any (entry_is_against transactions.now x mode) entries.now }
{
    let marks = Marks::new(transactions, x);
    entries.iter().any(|entry| is_against(transactions, &marks, x, mode, entry.owner, entry.mode))
}

/// Whether an ask stands against the mode for x.
pub(crate) fn asks_bar(transactions: &[Transaction], asks: &[Ask], x: u16, mode: Mode) -> bool
    requires { IsForest transactions.now }
    ensures { result ≡ list_any (ask_is_against transactions.now x mode) asks.now }
{
    match ask_in_conflict(asks, mode) {
        Some(k) => {
            !is_own(transactions, asks[k].owner, x) || marked_asks_bar(transactions, asks, x, mode)
        }
        None => false,
    }
}

// The place of an ask that conflicts with the mode.
fn ask_in_conflict(asks: &[Ask], mode: Mode) -> Option<usize>
    ensures place { result ≡ position (ask_conflicts mode) asks.now }
    ensures within { IfSome result (λ k. k < length asks.now) }
{
    asks.iter().position(|ask| mode.conflicts(ask.mode))
}

fn marked_asks_bar(transactions: &[Transaction], asks: &[Ask], x: u16, mode: Mode) -> bool
    requires { IsForest transactions.now }
    ensures { result ≡ list_any (ask_is_against transactions.now x mode) asks.now }
{
    let marks = Marks::new(transactions, x);
    asks.iter().any(|ask| is_against(transactions, &marks, x, mode, ask.owner, ask.mode))
}

fn is_against(
    transactions: &[Transaction],
    marks: &Marks,
    x: u16,
    mode: Mode,
    owner: u16,
    other: Mode,
) -> bool
    requires forest { IsForest transactions.now }
    requires marks { MarksOwn transactions.now x marks.now }
    ensures { result ≡ is_against transactions.now x mode owner other }
{
    mode.conflicts(other) && !marks.is_own(transactions, owner, x)
}

#[tactic(auto, using(crate::proofs::AddedLocks::free_here, crate::proofs::AddedLocks::free_later), unfolding(crate::specs::Locks::first_free))]
pub(crate) fn first_free(
    transactions: &[Transaction],
    entries: &[Entry],
    queue: &[Ask],
) -> Option<usize>
    requires { IsForest transactions.now }
    ensures place { result ≡ first_free transactions.now (record { entries = entries.now; queue = queue.now }) }
    ensures within { IfSome result (λ k. k < length queue.now) }
{
    for (k, ask) in queue.iter().enumerate() {
        if is_free(transactions, entries, &queue[..k], ask.owner, ask.mode) {
            return Some(k);
        }
    }
    None
}

// The place of the ask of x.
fn ask_place(queue: &[Ask], x: u16) -> Option<usize>
    ensures place { result ≡ position (is_asked_by x) queue.now }
    ensures within { IfSome result (λ k. k < length queue.now) }
{
    queue.iter().position(|ask| ask.owner == x)
}

pub(crate) fn keep_asks(queue: &mut Vec<Ask>, transactions: &[Transaction])
    ensures asks { queue.new.items ≡ filter (λ (ask : AnyAsk). is_open_transaction transactions.now ask.owner) queue.old.items }
    ensures len { vec_len queue.new ≤ vec_len queue.old }
{
    queue.retain(|ask| is_open(transactions, ask.owner));
}

/// Whether x waits in a set with these entries and this queue, and y is in its way: an entry or an earlier ask of y
/// stands against the ask of x.
pub(crate) fn waits_for(
    transactions: &[Transaction],
    entries: &[Entry],
    queue: &[Ask],
    x: u16,
    y: u16,
) -> bool
    requires { IsForest transactions.now }
    ensures { result ≡ waits_in transactions.now x y (record { entries = entries.now; queue = queue.now }) }
{
    match ask_place(queue, x) {
        Some(k) => {
            let mode = queue[k].mode;
            let marks = Marks::new(transactions, x);
            holder_bars(transactions, &marks, entries, x, mode, y)
                || asker_bars(transactions, &marks, &queue[..k], x, mode, y)
        }
        None => false,
    }
}

// Whether an entry of y stands against the mode for x.
fn holder_bars(
    transactions: &[Transaction],
    marks: &Marks,
    entries: &[Entry],
    x: u16,
    mode: Mode,
    y: u16,
) -> bool
    requires forest { IsForest transactions.now }
    requires marks { MarksOwn transactions.now x marks.now }
    ensures { result ≡ list_any (holder_is_against transactions.now x mode y) entries.now }
{
    entries.iter().any(|entry| {
        entry.owner == y && is_against(transactions, marks, x, mode, entry.owner, entry.mode)
    })
}

// Whether an ask of y stands against the mode for x.
fn asker_bars(
    transactions: &[Transaction],
    marks: &Marks,
    asks: &[Ask],
    x: u16,
    mode: Mode,
    y: u16,
) -> bool
    requires forest { IsForest transactions.now }
    requires marks { MarksOwn transactions.now x marks.now }
    ensures { result ≡ list_any (asker_is_against transactions.now x mode y) asks.now }
{
    asks.iter().any(|ask| {
        ask.owner == y && is_against(transactions, marks, x, mode, ask.owner, ask.mode)
    })
}
