ghost use Rattle.lt_law_accounts.specs.AccountPlay.{Ticks, Ages, Asks, Grants, Unlocks, Drops, AnswersKeep, Owes, Delivers, Voids, VoidsCopies, Applies, AppliesStale, TellsKeep, Settles, Arrives, Rests, Freezes, Reorders, HoldClear, ClearStays, FirstAccounts, AnyOrder, FromTheStart};
ghost use Rattle.lt_law_accounts.specs.Account.{OwedAreOnWay, OnWayAreOwed, TellKeepsWaiting, TwiceIsOnce, RecordBoundsHeld, DrawnByFirst, HolderEntersAfterHolders, OthersEnterLast, ParksBehindTakingAsk, KeepsFreezeOfSameNumber, TakesLaterFreeze};
ghost use Rattle.lt_law_accounts.specs.News.{BeginsKeep, Changes, Sends, Spares, Keeps, TakesKeep, Leaves, Arrives as NewsArrive, Reorders as NewsReorder, FrozenAtRest};

/// What can happen to the account of a node keeps it. What counts of the node then bars the same, or less, or one mode
/// more, which no other node bars.
pub fn law_account()
    ensures ticks { Ticks }
    ensures ages { Ages }
    ensures asks { Asks }
    ensures grants { Grants }
    ensures unlocks { Unlocks }
    ensures drops { Drops }
    ensures answers { AnswersKeep }
    ensures owes { Owes }
    ensures delivers { Delivers }
    ensures voids { Voids }
    ensures voids_copies { VoidsCopies }
    ensures applies { Applies }
    ensures stale { AppliesStale }
    ensures tells { TellsKeep }
    ensures settles { Settles }
    ensures arrives { Arrives }
    ensures rests { Rests }
    ensures freezes { Freezes }
    ensures reorders { Reorders }
{}

/// What a kept account says of its node, whatever is on its way; and that a tell after an older one leaves what it would
/// have left alone.
pub fn law_account_facts()
    ensures owed { OwedAreOnWay }
    ensures on_way { OnWayAreOwed }
    ensures told { TellKeepsWaiting }
    ensures twice { TwiceIsOnce }
    ensures bound { RecordBoundsHeld }
{}

/// Two nodes whose records are clear of each other hold modes that don't conflict; and so it stays, in any order in which
/// tells, copies and tokens arrive.
pub fn law_accounts()
    ensures first { FirstAccounts }
    ensures held { HoldClear }
    ensures clear { ClearStays }
    ensures any_order { AnyOrder }
    ensures from_the_start { FromTheStart }
{}

/// What can happen to the news of frozen modes of a node keeps it, and what the news are at rest.
pub fn law_news()
    ensures begins { BeginsKeep }
    ensures changes { Changes }
    ensures sends { Sends }
    ensures spares { Spares }
    ensures keeps { Keeps }
    ensures takes { TakesKeep }
    ensures leaves { Leaves }
    ensures arrives { NewsArrive }
    ensures reorders { NewsReorder }
    ensures rest { FrozenAtRest }
{}

/// Rules of a node, stated a second way: what draws the desk, where an ask enters, what is parked, which freeze is kept.
pub fn law_rules()
    ensures draws { DrawnByFirst }
    ensures holder { HolderEntersAfterHolders }
    ensures other { OthersEnterLast }
    ensures parks { ParksBehindTakingAsk }
    ensures same_freeze { KeepsFreezeOfSameNumber }
    ensures later_freeze { TakesLaterFreeze }
{}
