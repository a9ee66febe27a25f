// The lists of a letter.
ghost use Rattle.std.specs.Prelude.{◌≡◌, ◌<◌, ◌≤◌, ◌^◌, length, IfOk};
ghost use Rattle.lt_table.specs.Seen.{entry_seen};
ghost use Rattle.lt_letters.specs.Reading.{many_from, stamp_from, stamps_from, owed_from, all_owed_from, ask_from, asks_from, entry_from, entries_from};
ghost use Rattle.lt_letters.specs.Seen.{IsReading, Builds};

use crate::fault::{Fault, ReadError};
use crate::fields::{ask_of, byte_up_to, modes_of, owed_of, stamp_of, u32_of, u64_of};
use lt_modes::{Ask, Owed};
use lt_table::{Entry, Pending, Table};
use std::alloc::Global;

fn stamps_in(count: u8, bytes: &[u8]) -> Result<(Pending, &[u8]), Fault>
    requires { count ≤ 16 }
    ensures { IsReading (λ x. (x.0, x.1.now)) result (many_from stamp_from count bytes.now) }
{
    let mut stamps = Pending::new();
    let mut rest = bytes;
    for _ in 0..count {
        let (stamp, after) = stamp_of(rest)?;
        stamps.push(stamp);
        rest = after;
    }
    Ok((stamps, rest))
}

#[tactic(auto, unfolding(crate::specs::Reading::stamps_from, crate::specs::Reading::list_from))]
pub(crate) fn stamps_of(bytes: &[u8]) -> Result<(Pending, &[u8]), Fault>
    ensures { IsReading (λ x. (x.0, x.1.now)) result (stamps_from bytes.now) }
{
    let (count, rest) = byte_up_to(16, bytes)?;
    stamps_in(count, rest)
}

fn owed_in(alloc: Global, count: u64, bytes: &[u8]) -> Result<(Vec<Owed>, &[u8]), ReadError>
    ensures { Builds (λ x. (x.0.items, x.1.now)) result (many_from owed_from count bytes.now) }
{
    let mut owed = Vec::new(alloc);
    let mut rest = bytes;
    for _ in 0..count {
        let (one, after) = owed_of(rest)?;
        owed.push(one)?;
        rest = after;
    }
    Ok((owed, rest))
}

#[tactic(auto, unfolding(crate::specs::Reading::all_owed_from, crate::specs::Reading::list_from))]
fn all_owed_of(alloc: Global, bytes: &[u8]) -> Result<(Vec<Owed>, &[u8]), ReadError>
    ensures { Builds (λ x. (x.0.items, x.1.now)) result (all_owed_from bytes.now) }
{
    let (count, rest) = u64_of(bytes)?;
    owed_in(alloc, count, rest)
}

fn asks_in(alloc: Global, count: u32, bytes: &[u8]) -> Result<(Vec<Ask>, &[u8]), ReadError>
    ensures count { IfOk result (λ x. length x.0.items ≡ count) }
    ensures value { Builds (λ x. (x.0.items, x.1.now)) result (many_from ask_from count bytes.now) }
{
    let mut asks = Vec::new(alloc);
    let mut rest = bytes;
    for _ in 0..count {
        let (ask, after) = ask_of(rest)?;
        asks.push(ask)?;
        rest = after;
    }
    Ok((asks, rest))
}

#[tactic(auto, unfolding(crate::specs::Reading::asks_from, crate::specs::Reading::list_from))]
pub(crate) fn asks_of(alloc: Global, bytes: &[u8]) -> Result<(Vec<Ask>, &[u8]), ReadError>
    ensures value { Builds (λ x. (x.0.items, x.1.now)) result (asks_from bytes.now) }
    ensures few { IfOk result (λ x. length x.0.items < 2 ^ 32) }
{
    let (count, rest) = u32_of(bytes)?;
    let (asks, rest) = asks_in(alloc, count, rest)?;
    Ok((asks, rest))
}

#[tactic(auto, unfolding(crate::specs::Reading::entry_from))]
fn entry_of(alloc: Global, bytes: &[u8]) -> Result<(Entry, &[u8]), ReadError>
    ensures { Builds (λ x. (entry_seen x.0, x.1.now)) result (entry_from bytes.now) }
{
    let (reported, rest) = match modes_of(bytes) {
        Ok(read) => read,
        Err(fault) => return Err(ReadError::Fault(fault)),
    };
    let (owed, rest) = match all_owed_of(alloc, rest) {
        Ok(read) => read,
        Err(error) => return Err(error),
    };
    let (told_at, rest) = stamp_of(rest)?;
    let (pending, rest) = match stamps_of(rest) {
        Ok(read) => read,
        Err(fault) => return Err(ReadError::Fault(fault)),
    };
    let (frozen_told, rest) = match modes_of(rest) {
        Ok(read) => read,
        Err(fault) => return Err(ReadError::Fault(fault)),
    };
    let entry = Entry::of(reported, owed, told_at, pending, frozen_told);
    Ok((entry, rest))
}

fn entries_in(alloc: Global, nodes: u8, bytes: &[u8]) -> Result<(Table, &[u8]), ReadError>
    ensures count { IfOk result (λ x. length x.0.entries ≡ nodes) }
    ensures value { Builds (λ x. (x.0.entries, x.1.now)) result (many_from entry_from nodes bytes.now) }
{
    let mut table = Table::new(alloc, nodes)?;
    let mut rest = bytes;
    for node in 0..nodes {
        let (entry, after) = match entry_of(alloc, rest) {
            Ok(read) => read,
            Err(error) => return Err(error),
        };
        table.set(node, entry);
        rest = after;
    }
    Ok((table, rest))
}

#[tactic(auto, unfolding(crate::specs::Reading::entries_from, crate::specs::Reading::list_from))]
pub(crate) fn entries_of(alloc: Global, bytes: &[u8]) -> Result<(Table, &[u8]), ReadError>
    ensures value { Builds (λ x. (x.0.entries, x.1.now)) result (entries_from bytes.now) }
    ensures few { IfOk result (λ x. length x.0.entries ≤ 64) }
{
    let (nodes, rest) = byte_up_to(64, bytes)?;
    let (table, rest) = match entries_in(alloc, nodes, rest) {
        Ok(read) => read,
        Err(error) => return Err(error),
    };
    Ok((table, rest))
}
