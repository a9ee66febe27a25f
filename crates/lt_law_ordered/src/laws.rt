ghost use Rattle.lt_law_ordered.specs.OrderedLaws.{OrderedFinish, OrderedRelease, RankedFinish, RankedRelease, AloneFinish, RankedHold, RankedWait, StuckByRing, StuckByRingOrVoid};
ghost use Rattle.lt_spec.specs.Ordered.{FirstBadIsExact};
ghost use Rattle.lt_law_ordered.specs.OrderedRows.{LockThenUnlockRow, WriteInTurnRow, WriteKeptRow, ChangeOfModeRow, AgainstTheOrderRow, NoClientsRow, FamilyDroppedRow, DropOfAnotherRow, WaitsGivenUpRow, GivenUpAndKeptRow};

/// A run of an ordered script that is at rest has no waiting client, and nothing is held then.
///
/// The same holds of any ranks of the sets, where a `try`, a `drop` of another client, and a `change` to a mode that the old
/// one covers need no order; and of scripts whose clients never ask while they hold. A `withdraw` may stand anywhere: a
/// lock whose wait was given up counts as one that may be held. A script whose clients release all that they may hold
/// gets stuck only by a ring, or behind an ask that was given up.
pub fn law_ordered()
    ensures finish { OrderedFinish }
    ensures release { OrderedRelease }
    ensures ranked { RankedFinish }
    ensures ranked_release { RankedRelease }
    ensures alone { AloneFinish }
    ensures hold { RankedHold }
    ensures wait { RankedWait }
    ensures deadlock { StuckByRing }
    ensures deadlock_or_void { StuckByRingOrVoid }
    ensures first_bad { FirstBadIsExact }
{}

/// Small scripts, and the first client of each that doesn't ask for sets in order.
pub fn law_order_rows()
    ensures lock_then_unlock { LockThenUnlockRow }
    ensures write_in_turn { WriteInTurnRow }
    ensures write_kept { WriteKeptRow }
    ensures change_of_mode { ChangeOfModeRow }
    ensures against_the_order { AgainstTheOrderRow }
    ensures no_clients { NoClientsRow }
    ensures family_dropped { FamilyDroppedRow }
    ensures drop_of_another { DropOfAnotherRow }
    ensures waits_given_up { WaitsGivenUpRow }
    ensures given_up_and_kept { GivenUpAndKeptRow }
{}
