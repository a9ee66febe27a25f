ghost use Rattle.std.specs.Prelude.{◌≡◌, ◌≢◌, ◌<◌, ◌≤◌, ◌+◌, ◌^◌, length, filter, position, vec_len, vec_capacity, IfSome};
ghost use Rattle.lt_nest.specs.declared.locks.Entry.{Entry as AnyEntry};
ghost use Rattle.lt_nest.specs.Forest.{is_open_transaction};
ghost use Rattle.lt_nest.specs.Kept.{IsRecent};
ghost use Rattle.lt_nest.specs.Locks.{is_held_by, is_entry_of, locks_held_by, total_locks, add_locks, pass_one, pass, drop_entries};

use crate::forest::{Transaction, is_open};
use crate::locks::{Entry, Recent};
use lt_modes::Mode;

#[tactic(auto, using(crate::proofs::ServedSets::locks_more, crate::proofs::ServedSets::locks_within))]
pub(crate) fn count(entries: &[Entry], x: u16, mode: Mode) -> u32
    requires { total_locks entries.now < 2 ^ 32 }
    ensures { result ≡ locks_held_by entries.now x mode }
{
    let mut locks = 0;
    for entry in entries {
        if entry.owner == x && entry.mode == mode {
            locks += entry.count;
        }
    }
    locks
}

/// Gives x so many locks more, and tells where their entry is. It is looked for only where it isn't the recent one.
#[tactic(auto, using(crate::proofs::FirstEntries::place_pushed, crate::proofs::FirstEntries::place_counted))]
pub(crate) fn add(
    entries: &mut Vec<Entry>,
    recent: Option<Recent>,
    x: u16,
    mode: Mode,
    locks: u32,
) -> Recent
    requires room { vec_len entries.old < vec_capacity entries.old }
    requires count { total_locks entries.old.items + locks < 2 ^ 32 }
    requires recent { IfSome recent (IsRecent entries.old.items) }
    ensures entries { entries.new.items ≡ add_locks entries.old.items x mode locks }
    ensures recent { IsRecent entries.new.items result }
    ensures capacity { vec_capacity entries.new ≡ vec_capacity entries.old }
    ensures len { vec_len entries.new ≤ vec_len entries.old + 1 }
{
    match recent_place(entries, recent, x, mode) {
        Some(k) => {
            let entry = &mut entries[k];
            entry.count += locks;
            Recent {
                owner: x,
                mode,
                place: k,
            }
        }
        None => {
            let place = entries.len();
            entries.push_reserved(Entry {
                owner: x,
                mode,
                count: locks,
            });
            Recent {
                owner: x,
                mode,
                place,
            }
        }
    }
}

/// The place of the entry of x and the mode, which is looked for only where it isn't the recent one.
pub(crate) fn recent_place(
    entries: &[Entry],
    recent: Option<Recent>,
    x: u16,
    mode: Mode,
) -> Option<usize>
    requires recent { IfSome recent (IsRecent entries.now) }
    ensures place { result ≡ position (is_entry_of x mode) entries.now }
    ensures within { IfSome result (λ k. k < length entries.now) }
{
    match recent {
        Some(last) => {
            if last.owner == x && last.mode == mode {
                Some(last.place)
            } else {
                place(entries, x, mode)
            }
        }
        None => place(entries, x, mode),
    }
}

fn place(entries: &[Entry], x: u16, mode: Mode) -> Option<usize>
    ensures place { result ≡ position (is_entry_of x mode) entries.now }
    ensures within { IfSome result (λ k. k < length entries.now) }
{
    entries
        .iter()
        .position(|entry| entry.owner == x && entry.mode == mode)
}

/// The entries of x are p's from now on.
pub(crate) fn pass(entries: &mut Vec<Entry>, x: u16, p: u16)
    requires other { p ≢ x }
    requires count { total_locks entries.old.items < 2 ^ 32 }
    ensures entries { entries.new.items ≡ pass x p entries.old.items }
    ensures capacity { vec_capacity entries.new ≡ vec_capacity entries.old }
    ensures len { vec_len entries.new ≤ vec_len entries.old }
{
    while let Some(k) = first_of(entries, x) {
        pass_one(entries, p, k);
    }
}

/// The place of an entry of x.
pub(crate) fn first_of(entries: &[Entry], x: u16) -> Option<usize>
    ensures place { result ≡ position (is_held_by x) entries.now }
    ensures within { IfSome result (λ k. k < length entries.now) }
{
    entries.iter().position(|entry| entry.owner == x)
}

// The entry at place k is p's from now on.
fn pass_one(entries: &mut Vec<Entry>, p: u16, k: usize)
    requires place { k < length entries.old.items }
    requires count { total_locks entries.old.items < 2 ^ 32 }
    ensures entries { entries.new.items ≡ pass_one p entries.old.items k }
    ensures capacity { vec_capacity entries.new ≡ vec_capacity entries.old }
    ensures len { vec_len entries.new ≤ vec_len entries.old }
{
    let entry = entries.remove(k);
    add(entries, None, p, entry.mode, entry.count);
}

pub(crate) fn drop_entries(entries: &mut Vec<Entry>, x: u16)
    ensures entries { entries.new.items ≡ drop_entries x entries.old.items }
    ensures capacity { vec_capacity entries.new ≡ vec_capacity entries.old }
    ensures len { vec_len entries.new ≤ vec_len entries.old }
{
    entries.retain(|entry| entry.owner != x);
}

pub(crate) fn keep_entries(entries: &mut Vec<Entry>, transactions: &[Transaction])
    ensures entries { entries.new.items ≡ filter (λ (entry : AnyEntry). is_open_transaction transactions.now entry.owner) entries.old.items }
    ensures capacity { vec_capacity entries.new ≡ vec_capacity entries.old }
    ensures len { vec_len entries.new ≤ vec_len entries.old }
{
    entries.retain(|entry| is_open(transactions, entry.owner));
}
