ghost use Rattle.std.specs.Prelude.{◌≡◌, ◌<◌, ◌+◌, ◌-◌, ◌^◌, true, false, if◌then◌else◌};
ghost use Rattle.lt_modes.specs.declared.mode.Mode.{Mode as AnyMode};
ghost use Rattle.lt_modes.specs.Modes.{has, same_mode};
ghost use Rattle.lt_modes.specs.FiveModes.{place_of_mode, mode_count, CanShift, IsShifted, modes_beyond};

use crate::mode::Mode;
use crate::mode_set::ModeSet;
use std::marker::Model;

/// How many sets of modes have each mode, among sets that come and change.
#[derive(Clone, Copy)]
pub struct ModeCounts {
    // In the order of the modes.
    by_mode: [u32; 6],
    // The modes that more sets have than none, than one, and than two.
    over_none: ModeSet,
    over_one: ModeSet,
    over_two: ModeSet,
}

impl Model for ModeCounts {
    ghost use Rattle.std.specs.Prelude.{ℕ, List, ◌≡◌};
    ghost use Rattle.lt_modes.specs.FiveModes.{modes_over};
    ghost use Rattle.std.proofs.Common.{sym};

    ghost Value = { List ℕ };

    ghost view = { λ c. c.by_mode };

    ghost invariant = { λ c. (c.over_none ≡ modes_over 0 c.by_mode)
        × ((c.over_one ≡ modes_over 1 c.by_mode) × (c.over_two ≡ modes_over 2 c.by_mode)) };

    ghost inverse = { λ numbers. record {
      by_mode = numbers;
      over_none = modes_over 0 numbers;
      over_one = modes_over 1 numbers;
      over_two = modes_over 2 numbers;
    } };

    ghost inverse_ok = { λ c h i. record {
      by_mode = c.by_mode;
      over_none = sym h.0 i;
      over_one = sym h.1.0 i;
      over_two = sym h.1.1 i;
    } };
}

impl ModeCounts {
    pub fn new() -> ModeCounts
        ensures { (mode : AnyMode) → mode_count mode result ≡ 0 }
    {
        ModeCounts {
            by_mode: [0; 6],
            over_none: ModeSet::empty(),
            over_one: ModeSet::empty(),
            over_two: ModeSet::empty(),
        }
    }

    pub fn get(&self, mode: Mode) -> u32
        ensures { result ≡ mode_count mode self.now }
    {
        self.by_mode[place(mode)]
    }

    /// The counts once a set of the first modes has the second ones.
    #[tactic(auto, using(crate::proofs::PlaceLemmas::none_shifted, crate::proofs::PlaceLemmas::all_shifted))]
    pub fn shifted(&self, from: ModeSet, to: ModeSet) -> ModeCounts
        requires { (mode : AnyMode) → CanShift self.now from to mode }
        ensures { (mode : AnyMode) → IsShifted self.now from to mode (mode_count mode result) }
    {
        let mut counts = *self;
        let mut left = from.without(to).union(to.without(from));
        while let Some(mode) = left.pop() {
            counts.set(mode, self.moved(mode, to));
        }
        counts
    }

    // The mode's number once a set has the second modes, where it has the mode in one of the first and the second alone.
    fn moved(&self, mode: Mode, to: ModeSet) -> u32
        requires more { has mode to ≡ true → mode_count mode self.now + 1 < 2 ^ 32 }
        requires less { has mode to ≡ false → 0 < mode_count mode self.now }
        ensures { result ≡ (if has mode to then mode_count mode self.now + 1 else mode_count mode self.now - 1) }
    {
        let count = self.get(mode);
        if to.has(mode) { count + 1 } else { count - 1 }
    }

    // The mode has this number from now on.
    fn set(&mut self, mode: Mode, count: u32)
        ensures own { mode_count mode self.new ≡ count }
        ensures others { (other : AnyMode) → same_mode mode other ≡ false
            → mode_count other self.new ≡ mode_count other self.old }
    {
        self.by_mode[place(mode)] = count;
        self.over_none = self.over_none.with_if(mode, count > 0);
        self.over_one = self.over_one.with_if(mode, count > 1);
        self.over_two = self.over_two.with_if(mode, count > 2);
    }

    /// The modes that more sets have than these two make up.
    pub fn beyond(&self, a: ModeSet, b: ModeSet) -> ModeSet
        ensures { result ≡ modes_beyond self.now a b }
    {
        let by_none = self.over_none.without(a.union(b));
        let by_one = self.over_one.without(a.common(b));
        by_none.union(by_one).union(self.over_two)
    }
}

/// The mode's place among all modes.
pub fn place(mode: Mode) -> usize
    ensures place { result ≡ place_of_mode mode }
    ensures within { result < 6 }
{
    mode as usize
}
