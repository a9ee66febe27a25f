ghost use Rattle.lt_model.specs.Laws.{OnePlace};
ghost use Rattle.lt_law_invariant.specs.InvariantLaws.{KeptStays, LettersFit, KeptInRuns, LocksNeverConflict, LettersFitInRuns, FirstWaiterInRuns, LedInRuns, FrozenInRuns, CopyServiceKeeps, HandOverKeeps, AllLocksAgree, MovesHoldUp, MovesKeepLedgers, FirstWaiterConflicts, BarredByLines, AsksAreLed, HoldersAreFrozen, NodesStayWithin, DropsStayWithin, AsksArePlaced};
ghost use Rattle.lt_spec.specs.Promised.{LinesOfServices, ServedInTurn};

/// Every enabled move of a world that has the invariant leads to one that has it, and each letter that is on its way
/// there fits its receiver.
pub fn law_step()
    ensures moves { KeptStays }
    ensures letters { LettersFit }
{}

/// What holds after each prefix of each run.
pub fn law_kept_in_runs()
    ensures kept { KeptInRuns }
    ensures locks { LocksNeverConflict }
    ensures place { OnePlace }
    ensures letters { LettersFitInRuns }
    ensures first { FirstWaiterInRuns }
    ensures led { LedInRuns }
    ensures frozen { FrozenInRuns }
{}

/// An ask that leaves a queue by being served conflicts with no ask that stands before it there.
pub fn law_in_turn()
    ensures lines { LinesOfServices }
    ensures run { ServedInTurn }
{}

/// Each enabled move keeps the ledgers of a set: the accounts and the news of its nodes, wherever its desk is.
pub fn law_ledgers()
    ensures { MovesKeepLedgers }
{}

/// The two effects of a move by which what is known of a node changes hands: a copy that is sent for an ask, and the desk
/// that leaves.
pub fn law_ledger_effects()
    ensures copy { CopyServiceKeeps }
    ensures hand_over { HandOverKeeps }
{}

/// Where a set is kept no two clients hold locks that conflict, whatever nodes they are on.
pub fn law_locks()
    ensures { AllLocksAgree }
{}

/// What a node has parked stays held up as the node moves: the token is on its way there, or an older taking ask of the
/// node is unanswered.
pub fn law_held_up()
    ensures { MovesHoldUp }
{}

/// Where no move is enabled: who waits for whom, and what is frozen.
pub fn law_rest()
    ensures first { FirstWaiterConflicts }
    ensures lines { BarredByLines }
    ensures led { AsksAreLed }
    ensures frozen { HoldersAreFrozen }
{}

/// In every run of a script each node keeps what leaves room for one move more.
pub fn law_within()
    ensures within { NodesStayWithin }
    ensures drops { DropsStayWithin }
    ensures asks { AsksArePlaced }
{}
