// The fields of a letter, read from the front of bytes.
ghost use Rattle.std.specs.Prelude.{◌≡◌, ◌==◌, ◌<◌, ◌≤◌, ◌/◌, ◌%◌, if◌then◌else◌, IfOk};
ghost use Rattle.std.specs.Int.{w16, w32, w64};
ghost use Rattle.lt_letters.specs.Reading.{byte_from, byte_to, number_from, mode_with, choice_with, flag_with, modes_with, one_of, stamp_from, link_from, owed_from, ask_from};
ghost use Rattle.lt_letters.specs.Seen.{IsReading};
ghost use Rattle.lt_modes.specs.Modes.{one, no_modes};
ghost use Rattle.lt_modes.specs.FiveModes.{modes_of_mask};

use crate::fault::Fault;
use lt_modes::{Ask, Link, Mode, ModeSet, Owed, Stamp};

/// The first byte, and those after it.
#[tactic(auto, unfolding(crate::specs::Reading::byte_from))]
pub fn byte_of(bytes: &[u8]) -> Result<(u8, &[u8]), Fault>
    ensures { IsReading (λ x. (x.0, x.1.now)) result (byte_from bytes.now) }
{
    match bytes {
        [] => Err(Fault::Short),
        [first, rest @ ..] => Ok((*first, rest)),
    }
}

// A byte that is no greater than this one.
#[tactic(auto, unfolding(crate::specs::Reading::byte_to))]
pub(crate) fn byte_up_to(most: u8, bytes: &[u8]) -> Result<(u8, &[u8]), Fault>
    ensures value { IsReading (λ x. (x.0, x.1.now)) result (byte_to most bytes.now) }
    ensures few { IfOk result (λ x. x.0 ≤ most) }
{
    let (number, rest) = byte_of(bytes)?;
    if most < number {
        return Err(Fault::TooMany);
    }
    Ok((number, rest))
}

#[tactic(auto, unfolding(crate::specs::Reading::number_from))]
pub(crate) fn u16_of(bytes: &[u8]) -> Result<(u16, &[u8]), Fault>
    ensures { IsReading (λ x. (x.0, x.1.now)) result (number_from w16 bytes.now) }
{
    if bytes.len() < 2 {
        return Err(Fault::Short);
    }
    let (front, rest) = bytes.split_at(2);
    let number = u16::from_le_bytes([front[0], front[1]]);
    Ok((number, rest))
}

/// The first number of 4 bytes, and the bytes after it.
#[tactic(auto, unfolding(crate::specs::Reading::number_from))]
pub fn u32_of(bytes: &[u8]) -> Result<(u32, &[u8]), Fault>
    ensures { IsReading (λ x. (x.0, x.1.now)) result (number_from w32 bytes.now) }
{
    if bytes.len() < 4 {
        return Err(Fault::Short);
    }
    let (front, rest) = bytes.split_at(4);
    let number = u32::from_le_bytes([front[0], front[1], front[2], front[3]]);
    Ok((number, rest))
}

/// The first number of 8 bytes, and the bytes after it.
#[tactic(auto, unfolding(crate::specs::Reading::number_from))]
pub fn u64_of(bytes: &[u8]) -> Result<(u64, &[u8]), Fault>
    ensures { IsReading (λ x. (x.0, x.1.now)) result (number_from w64 bytes.now) }
{
    if bytes.len() < 8 {
        return Err(Fault::Short);
    }
    let (front, rest) = bytes.split_at(8);
    let number = u64::from_le_bytes([
        front[0], front[1], front[2], front[3], front[4], front[5], front[6], front[7],
    ]);
    Ok((number, rest))
}

fn mode_with(number: u8) -> Option<Mode>
    ensures { result ≡ mode_with number }
{
    match number {
        0 => Some(Mode::IntentionRead),
        1 => Some(Mode::Read),
        2 => Some(Mode::Upgrade),
        3 => Some(Mode::IntentionWrite),
        4 => Some(Mode::ReadIntentionWrite),
        5 => Some(Mode::Write),
        _ => None,
    }
}

fn choice_with(number: u8) -> Option<Option<Mode>>
    ensures { result ≡ choice_with number }
{
    match number {
        0 => Some(Some(Mode::IntentionRead)),
        1 => Some(Some(Mode::Read)),
        2 => Some(Some(Mode::Upgrade)),
        3 => Some(Some(Mode::IntentionWrite)),
        4 => Some(Some(Mode::ReadIntentionWrite)),
        5 => Some(Some(Mode::Write)),
        6 => Some(None),
        _ => None,
    }
}

fn flag_with(number: u8) -> Option<bool>
    ensures { result ≡ flag_with number }
{
    match number {
        0 => Some(false),
        1 => Some(true),
        _ => None,
    }
}

fn modes_with(number: u8) -> Option<ModeSet>
    ensures { result ≡ modes_with number }
{
    if number < 64 {
        Some(modes_from(number))
    } else {
        None
    }
}

// The mode alone, where the mask has its bit.
fn part(mask: u8, bit: u8, mode: Mode) -> ModeSet
    requires { 0 < bit }
    ensures { result ≡ (if (mask / bit) % 2 == 1 then one mode else no_modes) }
{
    if (mask / bit) % 2 == 1 {
        ModeSet::one(mode)
    } else {
        ModeSet::empty()
    }
}

// The set with this mask.
fn modes_from(mask: u8) -> ModeSet
    ensures { result ≡ modes_of_mask mask }
{
    let all = ModeSet::empty();
    let all = part(mask, 1, Mode::IntentionRead).union(all);
    let all = part(mask, 2, Mode::Read).union(all);
    let all = part(mask, 4, Mode::Upgrade).union(all);
    let all = part(mask, 8, Mode::IntentionWrite).union(all);
    let all = part(mask, 16, Mode::ReadIntentionWrite).union(all);
    part(mask, 32, Mode::Write).union(all)
}

#[tactic(auto, unfolding(crate::specs::Reading::one_of))]
pub(crate) fn mode_of(bytes: &[u8]) -> Result<(Mode, &[u8]), Fault>
    ensures { IsReading (λ x. (x.0, x.1.now)) result (one_of mode_with bytes.now) }
{
    let (number, rest) = byte_of(bytes)?;
    match mode_with(number) {
        Some(mode) => Ok((mode, rest)),
        None => Err(Fault::Unknown),
    }
}

#[tactic(auto, unfolding(crate::specs::Reading::one_of))]
pub(crate) fn choice_of(bytes: &[u8]) -> Result<(Option<Mode>, &[u8]), Fault>
    ensures { IsReading (λ x. (x.0, x.1.now)) result (one_of choice_with bytes.now) }
{
    let (number, rest) = byte_of(bytes)?;
    match choice_with(number) {
        Some(choice) => Ok((choice, rest)),
        None => Err(Fault::Unknown),
    }
}

#[tactic(auto, unfolding(crate::specs::Reading::one_of))]
pub(crate) fn flag_of(bytes: &[u8]) -> Result<(bool, &[u8]), Fault>
    ensures { IsReading (λ x. (x.0, x.1.now)) result (one_of flag_with bytes.now) }
{
    let (number, rest) = byte_of(bytes)?;
    match flag_with(number) {
        Some(flag) => Ok((flag, rest)),
        None => Err(Fault::Unknown),
    }
}

#[tactic(auto, unfolding(crate::specs::Reading::one_of))]
pub(crate) fn modes_of(bytes: &[u8]) -> Result<(ModeSet, &[u8]), Fault>
    ensures { IsReading (λ x. (x.0, x.1.now)) result (one_of modes_with bytes.now) }
{
    let (number, rest) = byte_of(bytes)?;
    match modes_with(number) {
        Some(modes) => Ok((modes, rest)),
        None => Err(Fault::Unknown),
    }
}

#[tactic(auto, unfolding(crate::specs::Reading::stamp_from))]
pub(crate) fn stamp_of(bytes: &[u8]) -> Result<(Stamp, &[u8]), Fault>
    ensures { IsReading (λ x. (x.0, x.1.now)) result (stamp_from bytes.now) }
{
    let (clock, rest) = u64_of(bytes)?;
    let (node, rest) = byte_of(rest)?;
    Ok((Stamp { clock, node }, rest))
}

#[tactic(auto, unfolding(crate::specs::Reading::link_from))]
pub(crate) fn link_of(bytes: &[u8]) -> Result<(Link, &[u8]), Fault>
    ensures { IsReading (λ x. (x.0, x.1.now)) result (link_from bytes.now) }
{
    let (node, rest) = byte_of(bytes)?;
    let (epoch, rest) = u64_of(rest)?;
    Ok((Link { node, epoch }, rest))
}

#[tactic(auto, unfolding(crate::specs::Reading::owed_from))]
pub(crate) fn owed_of(bytes: &[u8]) -> Result<(Owed, &[u8]), Fault>
    ensures { IsReading (λ x. (x.0, x.1.now)) result (owed_from bytes.now) }
{
    let (stamp, rest) = stamp_of(bytes)?;
    let (mode, rest) = mode_of(rest)?;
    Ok((Owed { stamp, mode }, rest))
}

#[tactic(auto, unfolding(crate::specs::Reading::ask_from))]
pub(crate) fn ask_of(bytes: &[u8]) -> Result<(Ask, &[u8]), Fault>
    ensures { IsReading (λ x. (x.0, x.1.now)) result (ask_from bytes.now) }
{
    let (client, rest) = u16_of(bytes)?;
    let (node, rest) = byte_of(rest)?;
    let (mode, rest) = mode_of(rest)?;
    let (gives_up, rest) = choice_of(rest)?;
    let (holder, rest) = flag_of(rest)?;
    let (stamp, rest) = stamp_of(rest)?;
    let ask = Ask {
        client,
        node,
        mode,
        gives_up,
        holder,
        stamp,
    };
    Ok((ask, rest))
}
