ghost use Rattle.std.specs.Prelude.{◌≡◌, true, ◌&&◌, not, if◌then◌else◌, IfNone, IfSome};
ghost use Rattle.lt_modes.specs.Modes.{Modes, no_modes, one, with_mode, union, has, bars, covers, has_none, is_within, same_modes, modes_by, same_mode};
ghost use Rattle.lt_modes.specs.FiveModes.{five_of, bit_of, IsSplit};

use crate::mode::{MODES, Mode};
use std::marker::Model;

/// A set of modes.
#[derive(Clone, Copy, Debug, PartialEq, Eq)]
pub struct ModeSet {
    // One bit for each mode, in the order of the modes.
    mask: u8,
}

impl Model for ModeSet {
    ghost use Rattle.std.specs.Prelude.{◌<◌};
    ghost use Rattle.lt_modes.specs.Modes.{Modes};

    ghost Value = { Modes };

    ghost use Rattle.lt_modes.specs.FiveModes.{modes_of_mask, mask_of, mask_of_modes_of};
    ghost use Rattle.std.specs.Prelude.{◌≡◌};
    ghost use Rattle.std.proofs.Common.{ap};

    ghost view = { λ s. modes_of_mask s.mask };

    ghost invariant = { λ s. s.mask < 64 };

    ghost inverse = { λ s. record { mask = mask_of s } };

    ghost inverse_ok = { λ s h. ap (λ k. record { mask = k }) (mask_of_modes_of s.mask h) };
}

impl ModeSet {
    pub fn empty() -> ModeSet
        ensures { result ≡ no_modes }
    {
        ModeSet { mask: 0 }
    }

    pub fn one(mode: Mode) -> ModeSet
        ensures { result ≡ one mode }
    {
        ModeSet { mask: bit(mode) }
    }

    /// The set with one mode more.
    pub fn with(self, mode: Mode) -> ModeSet
        ensures { result ≡ with_mode self mode }
    {
        self.union(ModeSet::one(mode))
    }

    pub fn union(self, other: ModeSet) -> ModeSet
        ensures { result ≡ union self other }
    {
        ModeSet {
            mask: self.mask | other.mask,
        }
    }

    pub fn has(self, mode: Mode) -> bool
        ensures { result ≡ has mode self }
    {
        self.mask & bit(mode) != 0
    }

    /// The modes that conflict with a member.
    pub fn bars(self) -> ModeSet
        ensures { result ≡ bars self }
    {
        let lower = BARRED_BY_LOWER >> (8 * u32::from(self.mask & 7));
        let upper = BARRED_BY_UPPER >> (8 * u32::from(self.mask >> 3));
        ModeSet {
            mask: ((lower | upper) & u64::from(ALL)) as u8,
        }
    }

    /// The modes that conflict with this one.
    #[tactic(auto, unfolding(crate::specs::Modes::conflicts))]
    pub fn barred_by(mode: Mode) -> ModeSet
        ensures { result ≡ bars (one mode) }
    {
        let mask = match mode {
            Mode::IntentionRead => bit(Mode::Write),
            Mode::Read => bit(Mode::IntentionWrite)
                | bit(Mode::ReadIntentionWrite)
                | bit(Mode::Write),
            Mode::Upgrade => {
                bit(Mode::Upgrade)
                    | bit(Mode::IntentionWrite)
                    | bit(Mode::ReadIntentionWrite)
                    | bit(Mode::Write)
            }
            Mode::IntentionWrite => {
                bit(Mode::Read)
                    | bit(Mode::Upgrade)
                    | bit(Mode::ReadIntentionWrite)
                    | bit(Mode::Write)
            }
            Mode::ReadIntentionWrite => ALL ^ bit(Mode::IntentionRead),
            Mode::Write => ALL,
        };
        ModeSet { mask }
    }

    /// Whether the set bars all that the mode bars.
    pub fn covers(self, mode: Mode) -> bool
        ensures { result ≡ covers self mode }
    {
        ModeSet::barred_by(mode).is_within(self.bars())
    }

    // The set with the mode, or without it.
    pub(crate) fn with_if(self, mode: Mode, there: bool) -> ModeSet
        ensures { result ≡ modes_by (λ m. if same_mode mode m then there else has m self) }
    {
        let others = self.without(ModeSet::one(mode));
        if there { others.with(mode) } else { others }
    }

    // The set without the members of the other.
    pub(crate) fn without(self, other: ModeSet) -> ModeSet
        ensures { result ≡ modes_by (λ m. has m self && not (has m other)) }
    {
        ModeSet {
            mask: self.mask & (ALL ^ other.mask),
        }
    }

    // The modes that both sets have.
    pub(crate) fn common(self, other: ModeSet) -> ModeSet
        ensures { result ≡ modes_by (λ m. has m self && has m other) }
    {
        ModeSet {
            mask: self.mask & other.mask,
        }
    }

    // Takes the first mode out.
    pub(crate) fn pop(&mut self) -> Option<Mode>
        ensures none { IfNone result (has_none self.old ≡ true) }
        ensures some { IfSome result (λ mode. IsSplit self.old mode self.new) }
    {
        if self.mask == 0 {
            return None;
        }
        let mode = MODES[self.mask.trailing_zeros() as usize];
        self.mask &= self.mask - 1;
        Some(mode)
    }

    pub fn is_empty(self) -> bool
        ensures { result ≡ has_none self }
    {
        self.mask == 0
    }

    /// The set without the mode that version 1 of a script doesn't have.
    pub fn of_five(self) -> ModeSet
        ensures { result ≡ five_of self }
    {
        ModeSet {
            mask: self.mask & FIVE,
        }
    }

    /// Whether each mode of this set is in the other.
    pub fn is_within(self, other: ModeSet) -> bool
        ensures { result ≡ is_within self other }
    {
        self.mask | other.mask == other.mask
    }

    /// Whether the two sets have the same modes.
    pub fn same(self, other: ModeSet) -> bool
        ensures { result ≡ same_modes self other }
    {
        self.mask == other.mask
    }
}

// The mask of all modes.
const ALL: u8 = 63;

// Byte k is the mask of what the set with mask k bars, for sets of the first three modes.
const BARRED_BY_LOWER: u64 = 0x3c3c_3c3c_3838_2000;

// Byte k is the mask of what the set with mask 8 k bars, for sets of the last three modes.
const BARRED_BY_UPPER: u64 = 0x3f3f_3f3f_3e3e_3600;

// The mask of all modes but `ReadIntentionWrite`.
const FIVE: u8 = 47;

// The mode's place in a mask.
fn bit(mode: Mode) -> u8
    ensures { result ≡ bit_of mode }
{
    match mode {
        Mode::IntentionRead => 1,
        Mode::Read => 2,
        Mode::Upgrade => 4,
        Mode::IntentionWrite => 8,
        Mode::ReadIntentionWrite => 16,
        Mode::Write => 32,
    }
}
