// Looks at the rings that letters come by.
ghost use Rattle.std.specs.Prelude.{◌≡◌, ◌≢◌, ◌<◌, ℕ, true, length, slice_get, IfSome, IfNone, IsTrue, IsFalse};
ghost use Rattle.lt_mail.specs.Passing.{Saw, LooksAt, LooksAtSome, SawNone, LaneChanges, TakesKnown, FindsNoLetter};
ghost use Rattle.lt_mail.specs.Known.{KnowsNone, NoneKnownBut};

use crate::lane::InLane;
use lt_desk::Letter;

/// The first ring but that from `me` in which a letter is, which is then known. It looks again, whatever is known.
#[tactic(auto, using(crate::proofs::LookLemmas::look_starts, crate::proofs::LookLemmas::none_starts, crate::proofs::LookLemmas::look_joins, crate::proofs::LookLemmas::none_stays, crate::proofs::LookLemmas::none_skips, crate::proofs::LookLemmas::none_goes_on))]
pub(crate) fn first_with_letter(ins: &mut [InLane], me: usize) -> Option<usize>
    ensures looked { LooksAtSome ins.old ins.new }
    ensures some { IfSome result (λ from. (from < length ins.new) × (from ≢ me) × Saw true (slice_get ins.new from)) }
    ensures first { IfSome result (λ from. SawNone from me ins.new) }
    ensures none { IfNone result (SawNone (length ins.new) me ins.new) }
{
    for from in 0..ins.len() {
        if look_at(ins, from) && from != me {
            return Some(from);
        }
    }
    None
}

// Whether a letter is in the ring, and then known.
fn look_at(ins: &mut [InLane], from: usize) -> bool
    requires { from < length ins.old }
    ensures looked { LooksAt ins.old ins.new from }
    ensures value { Saw result (slice_get ins.new from) }
{
    let lane = &mut ins[from];
    lane.has_letter()
}

/// Looks at the ring at this place, and then at those of these senders, bit q for node q, but not at that from `me`,
/// until a letter is in one, which is then known.
#[tactic(auto, using(crate::proofs::AloneLemmas::none_here))]
pub(crate) fn first_of(ins: &mut [InLane], me: usize, at: usize, senders: u64) -> Option<usize>
    requires { NoneKnownBut at me ins.old }
    ensures looked { LooksAtSome ins.old ins.new }
    ensures some { IfSome result (λ from. (from < length ins.new) × (from ≢ me) × Saw true (slice_get ins.new from)) }
    ensures others { IfSome result (λ from. NoneKnownBut from me ins.new) }
    ensures none { IfNone result (NoneKnownBut me me ins.new) }
{
    if look_at_other(ins, me, at) {
        return Some(at);
    }
    first_sender(ins, me, senders)
}

// Looks at the rings of these senders.
#[tactic(auto, using(crate::proofs::LookLemmas::look_starts))]
fn first_sender(ins: &mut [InLane], me: usize, senders: u64) -> Option<usize>
    requires { NoneKnownBut me me ins.old }
    ensures looked { LooksAtSome ins.old ins.new }
    ensures some { IfSome result (λ from. (from < length ins.new) × (from ≢ me) × Saw true (slice_get ins.new from)) }
    ensures others { IfSome result (λ from. NoneKnownBut from me ins.new) }
    ensures none { IfNone result (NoneKnownBut me me ins.new) }
{
    let mut left = of_first(senders, ins.len());
    while left != 0 {
        let sender = left.trailing_zeros() as usize;
        if look_at_other(ins, me, sender) {
            return Some(sender);
        }
        left &= left - 1;
    }
    None
}

// Those of the first so many nodes.
fn of_first(senders: u64, count: usize) -> u64 {
    if count < 64 {
        senders & !(u64::MAX << count)
    } else {
        senders
    }
}

// Looks at the ring, if it is there and not that from `me`.
#[tactic(auto, using(crate::proofs::AloneLemmas::looks_at_one))]
fn look_at_other(ins: &mut [InLane], me: usize, from: usize) -> bool
    ensures looked { LooksAtSome ins.old ins.new }
    ensures others { (node : ℕ) → node ≢ from → slice_get ins.new node ≡ slice_get ins.old node }
    ensures there { IsTrue result → (from < length ins.new) × (from ≢ me) × Saw true (slice_get ins.new from) }
    ensures none { IsFalse result → from ≢ me → KnowsNone (slice_get ins.new from) }
{
    from != me && from < ins.len() && look_at(ins, from)
}

/// Takes the next letter in the ring, which is known to be there.
pub(crate) fn take_next_at(ins: &mut [InLane], from: usize) -> Letter
    requires { Saw true (slice_get ins.old from) }
    ensures { LaneChanges (TakesKnown result) ins.old ins.new from }
{
    let lane = &mut ins[from];
    lane.take_next()
}

/// Takes the first letter that is known to be in the ring.
pub(crate) fn take_known_at(ins: &mut [InLane], from: usize) -> Option<Letter>
    requires { from < length ins.old }
    ensures some { IfSome result (λ letter. LaneChanges (TakesKnown letter) ins.old ins.new from) }
    ensures none { IfNone result (LaneChanges FindsNoLetter ins.old ins.new from) }
{
    let lane = &mut ins[from];
    lane.take_known()
}
