ghost use Rattle.lt_law_plays.specs.Merged.{OneMovePlays, PlaysJoin, PlaysGrow, PlaysRise, PlaysSendStamped, TakesNothingOfItself, TakesNothingFromBeyond, JoinedArePlays};
ghost use Rattle.lt_law_plays.specs.MergeLaws.{MergedIsRun, MergedEnds, MergedExists, MergedHasAll, MergedIsOne, HandIsFront, SentWereOnWay, OnWayWereSent, TokenStands, TokenCame, EnabledIsSeen, ClocksAreCounted, LettersAreCounted, HeadsFit, RunsArePlays};
ghost use Rattle.lt_law_plays.specs.AppendLaws.{PlaysGoOn, RunsGoOn, AppendedCommands, PlaysOfAppended, RunsOfAppended, PlaysSameAt, ShareIsSame, SharedPlays, SharedCommands};

/// One move is a play; a play and one that begins where it ended are a play; in a play the node's stamps rise.
pub fn law_plays()
    ensures one { OneMovePlays }
    ensures join { PlaysJoin }
    ensures grow { PlaysGrow }
    ensures rise { PlaysRise }
    ensures sent { PlaysSendStamped }
    ensures own { TakesNothingOfItself }
    ensures beyond { TakesNothingFromBeyond }
{}

/// Plays of all nodes, in which the letters that were used are the first ones of those sent, merge to exactly one run by
/// their stamps. After it each node is as its play left it, and the letters that were not used are on their way.
pub fn law_merge()
    ensures run { MergedIsRun }
    ensures ends { MergedEnds }
    ensures exists { MergedExists }
    ensures all { MergedHasAll }
    ensures one { MergedIsOne }
{}

/// In the world after that run the first letter that its receiver has not used is in front, and what a node can do is seen from
/// its own state and letters. The letters that were ever on their way are those that were sent.
pub fn law_letters()
    ensures hand { HandIsFront }
    ensures enabled { EnabledIsSeen }
    ensures on_way { SentWereOnWay }
    ensures sent { OnWayWereSent }
{}

/// The token history of that run is told by the letters that were sent.
pub fn law_tokens()
    ensures stands { TokenStands }
    ensures came { TokenCame }
{}

/// Clocks are no greater than the number of moves, so no letter is refused for its numbers in plays of fewer than 2^62 - 1 moves.
pub fn law_low_clocks()
    ensures counted { ClocksAreCounted }
    ensures letters { LettersAreCounted }
    ensures heads { HeadsFit }
{}

/// One play for each node, where each used the first ones of the letters that each other one sent to it, are such plays;
/// and so are the parts of the nodes in any run.
pub fn law_parts()
    ensures joined { JoinedArePlays }
    ensures run { RunsArePlays }
{}

/// A play is a play, and a run a run to the same world, of each script in which the commands of clients go on; so of the
/// script with a command appended to a client's list.
pub fn law_append()
    ensures plays { PlaysGoOn }
    ensures runs { RunsGoOn }
    ensures commands { AppendedCommands }
    ensures play_of_appended { PlaysOfAppended }
    ensures run_of_appended { RunsOfAppended }
{}

/// Where each node appended commands of its own clients, its script and the one with the commands of all nodes are the same
/// to it: its plays are plays of both.
pub fn law_shares()
    ensures plays { PlaysSameAt }
    ensures share { ShareIsSame }
    ensures shared { SharedPlays }
    ensures commands { SharedCommands }
{}
