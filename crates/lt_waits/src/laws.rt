ghost use Rattle.lt_waits.specs.BehindLaws.{BehindAreAll};
ghost use Rattle.lt_waits.specs.EdgeLaws.{EdgesAreTold, VoidEdgesAreTold};

/// Who waits behind some clients, in any graph: all that are led to them.
pub fn law_behind()
    ensures all { BehindAreAll }
{}

/// What the lines of a run tell of a client that waits for another one: what it wants, and whether a lock keeps it from
/// that; and of one that waits behind a void ask.
pub fn law_edges()
    ensures told { EdgesAreTold }
    ensures voids { VoidEdgesAreTold }
{}
