// Where a letter ends: this is found before the letter is built, and wants no memory.
ghost use Rattle.std.specs.Prelude.{◌≡◌};
ghost use Rattle.lt_letters.specs.Reading.{modes_with, one_of, many_from, stamps_from, owed_from, all_owed_from, ask_from, asks_from, entry_from, entries_from, asking_from, telling_from, copy_from, token_from, freeze_from, body_of_kind, body_from, letter_from, whole_from};
ghost use Rattle.lt_letters.specs.Seen.{EndsReading, FindsOne};

use crate::fault::Fault;
use crate::fields::{
    ask_of, byte_of, byte_up_to, flag_of, link_of, modes_of, owed_of, stamp_of, u32_of, u64_of,
};
use crate::lists::stamps_of;

fn modes_end(bytes: &[u8]) -> Result<&[u8], Fault>
    ensures { EndsReading (λ x. x.now) result (one_of modes_with bytes.now) }
{
    match modes_of(bytes) {
        Ok((_modes, rest)) => Ok(rest),
        Err(fault) => Err(fault),
    }
}

fn stamps_end(bytes: &[u8]) -> Result<&[u8], Fault>
    ensures { EndsReading (λ x. x.now) result (stamps_from bytes.now) }
{
    match stamps_of(bytes) {
        Ok((_stamps, rest)) => Ok(rest),
        Err(fault) => Err(fault),
    }
}

fn owed_end(count: u64, bytes: &[u8]) -> Result<&[u8], Fault>
    ensures { EndsReading (λ x. x.now) result (many_from owed_from count bytes.now) }
{
    let mut rest = bytes;
    for _ in 0..count {
        let (_owed, after) = owed_of(rest)?;
        rest = after;
    }
    Ok(rest)
}

#[tactic(auto, unfolding(crate::specs::Reading::all_owed_from, crate::specs::Reading::list_from))]
fn all_owed_end(bytes: &[u8]) -> Result<&[u8], Fault>
    ensures { EndsReading (λ x. x.now) result (all_owed_from bytes.now) }
{
    let (count, rest) = u64_of(bytes)?;
    let rest = owed_end(count, rest)?;
    Ok(rest)
}

fn each_ask_end(count: u32, bytes: &[u8]) -> Result<&[u8], Fault>
    ensures { EndsReading (λ x. x.now) result (many_from ask_from count bytes.now) }
{
    let mut rest = bytes;
    for _ in 0..count {
        let (_ask, after) = ask_of(rest)?;
        rest = after;
    }
    Ok(rest)
}

#[tactic(auto, unfolding(crate::specs::Reading::asks_from, crate::specs::Reading::list_from))]
fn asks_end(bytes: &[u8]) -> Result<&[u8], Fault>
    ensures { EndsReading (λ x. x.now) result (asks_from bytes.now) }
{
    let (count, rest) = u32_of(bytes)?;
    let rest = each_ask_end(count, rest)?;
    Ok(rest)
}

#[tactic(auto, unfolding(crate::specs::Reading::entry_from))]
fn entry_end(bytes: &[u8]) -> Result<&[u8], Fault>
    ensures { EndsReading (λ x. x.now) result (entry_from bytes.now) }
{
    let rest = modes_end(bytes)?;
    let rest = all_owed_end(rest)?;
    let (_told_at, rest) = stamp_of(rest)?;
    let rest = stamps_end(rest)?;
    let rest = modes_end(rest)?;
    Ok(rest)
}

fn each_entry_end(nodes: u8, bytes: &[u8]) -> Result<&[u8], Fault>
    ensures { EndsReading (λ x. x.now) result (many_from entry_from nodes bytes.now) }
{
    let mut rest = bytes;
    for _ in 0..nodes {
        rest = entry_end(rest)?;
    }
    Ok(rest)
}

#[tactic(auto, unfolding(crate::specs::Reading::entries_from, crate::specs::Reading::list_from))]
fn entries_end(bytes: &[u8]) -> Result<&[u8], Fault>
    ensures { EndsReading (λ x. x.now) result (entries_from bytes.now) }
{
    let (nodes, rest) = byte_up_to(64, bytes)?;
    let rest = each_entry_end(nodes, rest)?;
    Ok(rest)
}

#[tactic(auto, unfolding(crate::specs::Reading::token_from, crate::specs::Reading::desk_from))]
fn token_end(bytes: &[u8]) -> Result<&[u8], Fault>
    ensures { EndsReading (λ x. x.now) result (token_from bytes.now) }
{
    let (_epoch, rest) = u64_of(bytes)?;
    let (_number, rest) = u64_of(rest)?;
    let rest = asks_end(rest)?;
    let rest = entries_end(rest)?;
    Ok(rest)
}

#[tactic(auto, unfolding(crate::specs::Reading::telling_from, crate::specs::Reading::tell_from))]
fn telling_end(bytes: &[u8]) -> Result<&[u8], Fault>
    ensures { EndsReading (λ x. x.now) result (telling_from bytes.now) }
{
    let (_node, rest) = byte_of(bytes)?;
    let rest = modes_end(rest)?;
    let rest = stamps_end(rest)?;
    let (_stamp, rest) = stamp_of(rest)?;
    Ok(rest)
}

#[tactic(auto, unfolding(crate::specs::Reading::asking_from))]
fn asking_end(bytes: &[u8]) -> Result<&[u8], Fault>
    ensures { EndsReading (λ x. x.now) result (asking_from bytes.now) }
{
    let (_ask, rest) = ask_of(bytes)?;
    let (_by_hoped, rest) = flag_of(rest)?;
    Ok(rest)
}

#[tactic(auto, unfolding(crate::specs::Reading::copy_from))]
fn copy_end(bytes: &[u8]) -> Result<&[u8], Fault>
    ensures { EndsReading (λ x. x.now) result (copy_from bytes.now) }
{
    let (_ask, rest) = ask_of(bytes)?;
    Ok(rest)
}

#[tactic(auto, unfolding(crate::specs::Reading::freeze_from))]
fn freeze_end(bytes: &[u8]) -> Result<&[u8], Fault>
    ensures { EndsReading (λ x. x.now) result (freeze_from bytes.now) }
{
    let (_number, rest) = u64_of(bytes)?;
    let rest = modes_end(rest)?;
    Ok(rest)
}

#[tactic(auto, unfolding(crate::specs::Reading::body_of_kind))]
fn end_of_kind(kind: u8, bytes: &[u8]) -> Result<&[u8], Fault>
    ensures { EndsReading (λ x. x.now) result (body_of_kind kind bytes.now) }
{
    match kind {
        0 => asking_end(bytes),
        1 => telling_end(bytes),
        2 => copy_end(bytes),
        3 => token_end(bytes),
        4 => freeze_end(bytes),
        _ => Err(Fault::Unknown),
    }
}

#[tactic(auto, unfolding(crate::specs::Reading::letter_from, crate::specs::Reading::body_from))]
fn letter_end(bytes: &[u8]) -> Result<&[u8], Fault>
    ensures { EndsReading (λ x. x.now) result (letter_from bytes.now) }
{
    let (_stamp, rest) = stamp_of(bytes)?;
    let (_set, rest) = u32_of(rest)?;
    let (_link, rest) = link_of(rest)?;
    let (kind, rest) = byte_of(rest)?;
    let rest = end_of_kind(kind, rest)?;
    Ok(rest)
}

/// Whether the bytes are a letter, all of them.
#[tactic(auto, unfolding(crate::specs::Reading::whole_from))]
pub(crate) fn whole_end(bytes: &[u8]) -> Result<(), Fault>
    ensures { FindsOne result (whole_from bytes.now) }
{
    let rest = letter_end(bytes)?;
    if !rest.is_empty() {
        return Err(Fault::Trailing);
    }
    Ok(())
}
