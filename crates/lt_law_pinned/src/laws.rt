ghost use Rattle.lt_law_pinned.specs.Locks.{LocksExcluded, PlacesExcluded, WaitsExcluded, RestsExcluded, TriesExcluded};
ghost use Rattle.lt_law_pinned.specs.Worlds.{PromisedOpens, CountsExcluded, StandingExcluded, TurnsExcluded};
ghost use Rattle.lt_law_pinned.specs.Whole.{WholeIs, DrawnIs};
ghost use Rattle.lt_law_pinned.specs.Told.{WordsAre, RunsTold, OrdersTold, TimesTold, SoakTold, CheckTold, MakeTold, WithinTold, FarTold, EachTimeTold, EndsTold};

use lt_law_ends::law_never_cut;

/// Runs with one fault each, none of which is promised.
///
/// In most of them a line names a client or a set that the script doesn't have, or a client is on a node that it
/// doesn't have: so all else that is promised holds of them, and no other part of the promise rules them out.
pub fn law_excluded()
    ensures locks { LocksExcluded }
    ensures places { PlacesExcluded }
    ensures waits { WaitsExcluded }
    ensures rests { RestsExcluded }
    ensures tries { TriesExcluded }
{}

/// The parts of the promise that speak of a world, of whole worlds with one fault each; runs by the rules reach none of
/// them. The parts that no run lacks alone are spelled out (`opens`).
pub fn law_worlds_excluded()
    ensures counts { CountsExcluded }
    ensures standing { StandingExcluded }
    ensures turns { TurnsExcluded }
    ensures opens { PromisedOpens }
{}

/// A script of version 2, its run and its journal, which have each form of a line, each command, each event and each
/// mode; and a script of twenty commands that is made from a seed.
pub fn law_texts()
    ensures whole { WholeIs }
    ensures drawn { DrawnIs }
{}

/// What an answer says of its run, field by field, for each command; and the words of each command.
///
/// Each clause names one field: with that field left out, or made weaker, the clause doesn't follow from the others.
pub fn law_told()
    ensures words { WordsAre }
    ensures runs { RunsTold }
    ensures orders { OrdersTold }
    ensures times { TimesTold }
    ensures each_time { EachTimeTold }
    ensures within { WithinTold }
    ensures far { FarTold }
    ensures ends { EndsTold }
    ensures soak { SoakTold }
    ensures check { CheckTold }
    ensures make { MakeTold }
{
    law_never_cut();
}
