ghost use Rattle.lt_law_waiting.specs.ReportLaws.{RingSetWaits, RingSetIsGreatest, WalkFindsRing, NoRing, WalksEnd, WaitsAreTold, CyclesAreRings, RingsAreTold, NoCycleIsTold, EndsAreTold, EndsAreAll, ChangesReport, KeptReport, ParkedReport, RingBehindLeast, LongWalk, RingOfThree, RingOfFour, RingAndEnded, VoidInTheWay};
ghost use Rattle.lt_law_waiting.specs.WaitingLaws.{OnlyWaitersWait, OnlyWaitersAreBehind, EachHasReason, EndedHold, WaitersHaveReasons, PairsAreReported, VoidPairsAreReported, EndsHaveReasons, WaitersHaveLines, UnmarkedWaits, UnmarkedReport, EachWaitsForSome, WaitersAreExplained, EndsAreReported, WaitersAreReported};

/// Of any graph of who waits for whom: the ring set, the ring that a walk in it finds, and where walks end if no clients wait
/// in a ring.
pub fn law_rings()
    ensures waits { RingSetWaits }
    ensures greatest { RingSetIsGreatest }
    ensures found { WalkFindsRing }
    ensures none { NoRing }
    ensures ends { WalksEnd }
{}

/// What the lines of the report tell, of any graph.
pub fn law_reports()
    ensures pairs { WaitsAreTold }
    ensures cycles { CyclesAreRings }
    ensures rings { RingsAreTold }
    ensures no_cycle { NoCycleIsTold }
    ensures ends { EndsAreTold }
    ensures all { EndsAreAll }
{}

/// If no move is left, and no ask is given up, each waiting client waits for some client; somebody waits if and only if
/// clients wait in a ring or a client that has ended holds a lock against one that waits; and the report tells each of them.
/// Nobody waits behind a void ask then.
pub fn law_waiting()
    ensures waiters { OnlyWaitersWait }
    ensures some { EachWaitsForSome }
    ensures ended { EndedHold }
    ensures explained { WaitersAreExplained }
    ensures pairs { PairsAreReported }
    ensures ends { EndsAreReported }
    ensures all { WaitersAreReported }
    ensures unmarked { UnmarkedWaits }
    ensures no_void { UnmarkedReport }
{}

/// If no move is left, asks given up or not: each waiting client waits for some client, or behind a void ask; somebody waits if
/// and only if clients wait in a ring, or a client that has ended holds a lock against one that waits, or a client waits
/// behind a void ask; and the report tells each of them.
pub fn law_void_waits()
    ensures waiters { OnlyWaitersAreBehind }
    ensures some { EachHasReason }
    ensures explained { WaitersHaveReasons }
    ensures pairs { VoidPairsAreReported }
    ensures ends { EndsHaveReasons }
    ensures all { WaitersHaveLines }
{}

/// Small runs and their reports.
pub fn law_report_rows()
    ensures changes { ChangesReport }
    ensures kept { KeptReport }
    ensures parked { ParkedReport }
    ensures ring_behind_least { RingBehindLeast }
    ensures long_walk { LongWalk }
    ensures ring_of_three { RingOfThree }
    ensures ring_of_four { RingOfFour }
    ensures ring_and_ended { RingAndEnded }
    ensures void_in_the_way { VoidInTheWay }
{}
