// Letters, built from the front of bytes.
ghost use Rattle.std.specs.Prelude.{◌≡◌, IfOk, Ok, Err};
ghost use Rattle.lt_modes.specs.State.{Letter as PlainLetter};
ghost use Rattle.lt_desk.specs.LetterSeen.{tell_seen, body_seen, letter_seen};
ghost use Rattle.lt_letters.specs.Reading.{desk_from, tell_from, asking_from, telling_from, copy_from, token_from, freeze_from, body_of_kind, body_from, letter_from, whole_from};
ghost use Rattle.lt_letters.specs.Seen.{Builds, IsRead};
ghost use Rattle.lt_letters.specs.Spelling.{letter_bytes, LetterFits};
ghost use Rattle.lt_letters.specs.Causes.{AreOfLetter, BeginLetter, AreNoLetter, FollowLetter};
ghost use Rattle.lt_letters.specs.declared.fault.ReadError.TheVariants as errors;
ghost use Rattle.lt_letters.specs.declared.fault.Fault.TheVariants as faults;

use crate::ends::whole_end;
use crate::fault::{Fault, ReadError};
use crate::fields::{ask_of, byte_of, flag_of, link_of, modes_of, stamp_of, u32_of, u64_of};
use crate::lists::{asks_of, entries_of, stamps_of};
use lt_desk::{Body, Desk, Letter, News, Tell};
use lt_queue::Queue;
use std::alloc::Global;

#[tactic(auto, unfolding(crate::specs::Reading::desk_from))]
fn desk_of(alloc: Global, bytes: &[u8]) -> Result<(Desk, &[u8]), ReadError>
    ensures { Builds (λ x. (x.0.desk, x.1.now)) result (desk_from bytes.now) }
{
    let (epoch, rest) = u64_of(bytes)?;
    let (number, rest) = u64_of(rest)?;
    let (asks, rest) = asks_of(alloc, rest)?;
    let (table, rest) = match entries_of(alloc, rest) {
        Ok(read) => read,
        Err(error) => return Err(error),
    };
    let queue = Queue::from_asks(alloc, asks.as_slice())?;
    let desk = Desk::from_parts(alloc, epoch, number, queue, table)?;
    Ok((desk, rest))
}

#[tactic(auto, unfolding(crate::specs::Reading::tell_from))]
fn tell_of(alloc: Global, bytes: &[u8]) -> Result<(Tell, &[u8]), ReadError>
    ensures { Builds (λ x. (tell_seen x.0, x.1.now)) result (tell_from bytes.now) }
{
    let (node, rest) = byte_of(bytes)?;
    let (modes, rest) = match modes_of(rest) {
        Ok(read) => read,
        Err(fault) => return Err(ReadError::Fault(fault)),
    };
    let (pending, rest) = match stamps_of(rest) {
        Ok(read) => read,
        Err(fault) => return Err(ReadError::Fault(fault)),
    };
    let (stamp, rest) = stamp_of(rest)?;
    let tell = Tell {
        node,
        modes,
        pending: Box::new(alloc, pending)?,
        stamp,
    };
    Ok((tell, rest))
}

#[tactic(auto, unfolding(crate::specs::Reading::asking_from))]
fn asking_of(bytes: &[u8]) -> Result<(Body, &[u8]), ReadError>
    ensures { Builds (λ x. (body_seen x.0, x.1.now)) result (asking_from bytes.now) }
{
    let (ask, rest) = ask_of(bytes)?;
    let (by_hoped, rest) = flag_of(rest)?;
    Ok((Body::Ask { ask, by_hoped }, rest))
}

#[tactic(auto, unfolding(crate::specs::Reading::telling_from))]
fn telling_of(alloc: Global, bytes: &[u8]) -> Result<(Body, &[u8]), ReadError>
    ensures { Builds (λ x. (body_seen x.0, x.1.now)) result (telling_from bytes.now) }
{
    let (tell, rest) = match tell_of(alloc, bytes) {
        Ok(read) => read,
        Err(error) => return Err(error),
    };
    Ok((Body::Tell(tell), rest))
}

#[tactic(auto, unfolding(crate::specs::Reading::copy_from))]
fn copy_of(bytes: &[u8]) -> Result<(Body, &[u8]), ReadError>
    ensures { Builds (λ x. (body_seen x.0, x.1.now)) result (copy_from bytes.now) }
{
    let (ask, rest) = ask_of(bytes)?;
    Ok((Body::Copy(ask), rest))
}

#[tactic(auto, unfolding(crate::specs::Reading::token_from))]
fn token_of(alloc: Global, bytes: &[u8]) -> Result<(Body, &[u8]), ReadError>
    ensures { Builds (λ x. (body_seen x.0, x.1.now)) result (token_from bytes.now) }
{
    let (desk, rest) = match desk_of(alloc, bytes) {
        Ok(read) => read,
        Err(error) => return Err(error),
    };
    Ok((Body::Token(desk), rest))
}

#[tactic(auto, unfolding(crate::specs::Reading::freeze_from))]
fn freeze_of(bytes: &[u8]) -> Result<(Body, &[u8]), ReadError>
    ensures { Builds (λ x. (body_seen x.0, x.1.now)) result (freeze_from bytes.now) }
{
    let (number, rest) = u64_of(bytes)?;
    let (modes, rest) = match modes_of(rest) {
        Ok(read) => read,
        Err(fault) => return Err(ReadError::Fault(fault)),
    };
    Ok((Body::Freeze(News { number, modes }), rest))
}

#[tactic(auto, unfolding(crate::specs::Reading::body_of_kind))]
fn body_of_kind(alloc: Global, kind: u8, bytes: &[u8]) -> Result<(Body, &[u8]), ReadError>
    ensures { Builds (λ x. (body_seen x.0, x.1.now)) result (body_of_kind kind bytes.now) }
{
    match kind {
        0 => asking_of(bytes),
        1 => telling_of(alloc, bytes),
        2 => copy_of(bytes),
        3 => token_of(alloc, bytes),
        4 => freeze_of(bytes),
        _ => Err(ReadError::Fault(Fault::Unknown)),
    }
}

#[tactic(auto, unfolding(crate::specs::Reading::body_from))]
fn body_of(alloc: Global, bytes: &[u8]) -> Result<(Body, &[u8]), ReadError>
    ensures { Builds (λ x. (body_seen x.0, x.1.now)) result (body_from bytes.now) }
{
    let (kind, rest) = byte_of(bytes)?;
    body_of_kind(alloc, kind, rest)
}

#[tactic(auto, unfolding(crate::specs::Reading::letter_from))]
fn letter_of(alloc: Global, bytes: &[u8]) -> Result<(Letter, &[u8]), ReadError>
    ensures { Builds (λ x. (letter_seen x.0, x.1.now)) result (letter_from bytes.now) }
{
    let (stamp, rest) = stamp_of(bytes)?;
    let (set, rest) = u32_of(rest)?;
    let (link, rest) = link_of(rest)?;
    let (body, rest) = match body_of(alloc, rest) {
        Ok(read) => read,
        Err(error) => return Err(error),
    };
    let letter = Letter {
        stamp,
        set,
        link,
        body,
    };
    Ok((letter, rest))
}

// The letter that the bytes are. What is no letter is refused before anything is built.
#[tactic(auto, unfolding(crate::specs::Reading::whole_from))]
fn letter_in(alloc: Global, bytes: &[u8]) -> Result<Letter, ReadError>
    ensures exact { Builds letter_seen result (whole_from bytes.now) }
    ensures memory { result ≡ Err errors.Memory → IsRead (whole_from bytes.now) }
{
    whole_end(bytes)?;
    match letter_of(alloc, bytes) {
        Ok((letter, _rest)) => Ok(letter),
        Err(error) => Err(error),
    }
}

/// The letter that the bytes are, all of them.
///
/// The bytes may be any. Of those that are no letter the first fault is told, from left to right, and no memory was
/// asked for: whatever a count says, nothing is built before all that it counts was seen.
pub fn read_letter(alloc: Global, bytes: &[u8]) -> Result<Letter, ReadError>
    ensures found { IfOk result (λ letter. (bytes.now ≡ letter_bytes (letter_seen letter))
        × LetterFits (letter_seen letter)) }
    ensures again { (letter : PlainLetter) → LetterFits letter → bytes.now ≡ letter_bytes letter
        → Builds {Y = PlainLetter} letter_seen result (Ok letter) }
    ensures memory { result ≡ Err errors.Memory → AreOfLetter bytes.now }
    ensures short { result ≡ Err (errors.Fault faults.Short) → BeginLetter bytes.now }
    ensures unknown { result ≡ Err (errors.Fault faults.Unknown) → AreNoLetter bytes.now }
    ensures many { result ≡ Err (errors.Fault faults.TooMany) → AreNoLetter bytes.now }
    ensures trailing { result ≡ Err (errors.Fault faults.Trailing) → FollowLetter bytes.now }
    ensures exact { Builds letter_seen result (whole_from bytes.now) }
{
    letter_in(alloc, bytes)
}
