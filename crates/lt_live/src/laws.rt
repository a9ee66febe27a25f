ghost use Rattle.lt_live.specs.Live.{OpenedAreLive, LiveLasts, OneStationLasts, OneSessionLasts, RepliesOfLines, RepliesInLog, PolledInTurn, NoMoreThanSubmitted, SharedNow, ServedNow};
ghost use Rattle.lt_live.specs.Served.{ServedGoesOn, MomentsFollow, OneRunOfService};
ghost use Rattle.lt_live.specs.Moves.{ShowsNow};
ghost use Rattle.lt_live.specs.InHand.{TurnsKeepKnown, TurnTakesNext, HandMayAsk, HandsCanAppend, LooksLeaveHands, NoneStaysInHand};

/// What sessions are told are the replies of the run: a station tells them from the log of its node alone.
pub fn law_told()
    ensures lines { RepliesOfLines }
    ensures log { RepliesInLog }
{}

/// What `has_move` says of the runner of a station, while none of them is at work.
pub fn law_shows_moves()
    ensures { ShowsNow }
{}

/// A station takes the commands of a client that it knows one after the other, one in each turn.
pub fn law_taken()
    ensures known { TurnsKeepKnown }
    ensures next { TurnTakesNext }
{}

/// A station appends each command that was submitted: once the sessions of all clients of its node and their seats have
/// looked at their rings, a command that is in hand after a turn is one for which there was no memory.
pub fn law_in_hand()
    ensures may { HandMayAsk }
    ensures can { HandsCanAppend }
    ensures looks { LooksLeaveHands }
    ensures none { NoneStaysInHand }
{}

/// Stations and sessions stay those of one script, whatever stations and callers do, each on its own thread.
pub fn law_live_lasts()
    ensures opened { OpenedAreLive }
    ensures last { LiveLasts }
    ensures one_station { OneStationLasts }
    ensures one_session { OneSessionLasts }
{}

/// A session's replies come in the order of its commands, one for each.
pub fn law_polled_in_turn()
    ensures turn { PolledInTurn }
    ensures no_more { NoMoreThanSubmitted }
{}

/// At any time there is a run in which all sessions were served so far, though nobody made one list of the moves: what stations
/// and sessions keep says so, once they have looked at the rings between them.
pub fn law_served_now()
    ensures shared { SharedNow }
    ensures served { ServedNow }
{}

/// A run in which the sessions of a later moment were served goes on from what was submitted and polled before.
pub fn law_served_goes_on()
    ensures on { ServedGoesOn }
    ensures follow { MomentsFollow }
{}

/// There is one run that holds all moves of the stations and all commands that they took: none can be left out.
pub fn law_one_run()
    ensures { OneRunOfService }
{}
