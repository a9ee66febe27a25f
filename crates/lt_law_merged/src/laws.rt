ghost use Rattle.lt_law_merged.specs.JoinedRun.{JoinedRuns, JoinedMerges, LogsOfParts};
ghost use Rattle.lt_law_merged.specs.States.{StatesWithin, DropsWithin, AsksHavePlace, ClocksBelow, LettersLeftFit, CanMoveIsSeen, CanMoveIsEnabled, RestIsNoMove};

use lt_law_enabled::law_order;

/// The plays of all nodes, merged by stamps, are a run that ends with the nodes' states and with the letters that are left;
/// and what `merge` makes of their logs is that run.
pub fn law_joined()
    ensures runs { JoinedRuns }
    ensures exists { JoinedMerges }
    ensures logs { LogsOfParts }
{}

/// After it each node keeps what leaves room for a move more. Where no node made more moves than one of a service may, no
/// clock meets its bound, and each letter that is left fits its receiver, so also the one that is in its hand.
pub fn law_hand_fits()
    ensures within { StatesWithin }
    ensures drops { DropsWithin }
    ensures asks { AsksHavePlace }
    ensures clocks { ClocksBelow }
    ensures letters { LettersLeftFit }
{}

/// Whether a node can make a move is seen from its own state and the letters for it; a world is at rest where no node can.
pub fn law_can_move()
    ensures seen { CanMoveIsSeen }
    ensures enabled { CanMoveIsEnabled }
    ensures rest { RestIsNoMove }
{
    law_order();
}
