ghost use Rattle.lt_held.specs.HeldData.{CountIsWithin, LocksAreWithin};

/// A count is within the locks of its client, and those are within all locks.
#[tactic(auto, using(crate::proofs::RowLemmas::count_within, crate::proofs::RowLemmas::locks_within))]
pub fn law_rows()
    ensures count { CountIsWithin }
    ensures locks { LocksAreWithin }
{}
