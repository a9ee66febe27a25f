ghost use Rattle.lt_law_own_lines.specs.OwnLaws.{OwnLinesOfMoves, OwnLinesInRuns, RepliesAtHome, RepliesOfLog, RepliesSoFar, RepliesGrow};
ghost use Rattle.lt_law_own_lines.specs.WaitingLaws.{WaitingInCommands, WaitingInTakes, WaitingInActs, WaitingInNodeTakes, KnownWhereSound, NamesAtStart, ActsReachPeers, TakesReachPeers};
ghost use Rattle.lt_law_own_lines.specs.OldLaws.{UnmarkedInRuns, OldLinesInRuns};

/// The lines that name a client as the one that acts or is answered stand in moves of that client's own node: in each
/// enabled move of a world that is at home, and so in each run; and so the replies to a client in a run are those in the
/// entries of its node alone.
pub fn law_own_lines()
    ensures step { OwnLinesOfMoves }
    ensures run { OwnLinesInRuns }
    ensures replies { RepliesAtHome }
    ensures log { RepliesOfLog }
    ensures so_far { RepliesSoFar }
    ensures grow { RepliesGrow }
{}

/// Only the clients that the lines of a move name may wait from then on, or wait no more: in each move of one set, and so
/// in each move of a node, in which no other client has made a command either. The node's own asks are to be known there,
/// as they are where each set is sound.
pub fn law_waiting_lines()
    ensures commands { WaitingInCommands }
    ensures takes { WaitingInTakes }
    ensures act { WaitingInActs }
    ensures take { WaitingInNodeTakes }
    ensures known { KnownWhereSound }
{}

/// What a node keeps names nodes of the script from the start on, through each act and each take of a letter that fits,
/// and each letter that it sends is for another node of the script.
pub fn law_peers()
    ensures start { NamesAtStart }
    ensures acts { ActsReachPeers }
    ensures takes { TakesReachPeers }
{}

/// Where no command of the script gives up a wait, no set has the mark of an ask that was given up, whatever the order of the
/// moves, and each line is one of the older formats.
pub fn law_old_lines()
    ensures unmarked { UnmarkedInRuns }
    ensures lines { OldLinesInRuns }
{}
