ghost use Rattle.lt_model.specs.Laws.{MoveBegins, AsideStays, MovesInSteps, MovesAreParts, StartKept, StartLines, PathsKept, PathsInRuns, DeskSomewhere, TokenComes, OneToken, OthersStay, ClockMoves, OtherClocksStay, StampsKept, ClocksInRuns, TimedKept, TimedInRuns, StandingKept, StandingInRuns, StandsOnce, OnePlace, ServedKept, ServedInRuns, TryIsExact, TriesAreExact, TriesInRuns};
ghost use Rattle.lt_model.specs.PathEffects.{EffectsOnPath};
ghost use Rattle.lt_model.specs.Homes.{HomesKept, HomesInRuns, HomesSound, StampsApart, LinesInRuns, FewAdded};

/// The world invariant holds at the start of each script.
pub fn law_start()
    ensures world { StartKept }
    ensures lines { StartLines }
{}

/// A set that is kept is kept in the middle form when a move begins, and as it was when a move doesn't touch it; and a move is
/// made of its parts: on each set that it touches, the rule of the command or of the letter, and then the end of the move.
pub fn law_moment()
    ensures begins { MoveBegins }
    ensures aside { AsideStays }
    ensures steps { MovesInSteps }
    ensures parts { MovesAreParts }
{}

/// Links lead to the token of a set, of which there is one, and no enabled move changes that.
pub fn law_paths()
    ensures effects { EffectsOnPath }
    ensures step { PathsKept }
    ensures run { PathsInRuns }
    ensures desk { DeskSomewhere }
    ensures comes { TokenComes }
{}

/// There is one token of each set at any time of a run.
pub fn law_one_token()
    ensures { OneToken }
{}

/// A move touches the sets of its command or of its letter; all that there is of any other set stays.
pub fn law_other_sets()
    ensures { OthersStay }
{}

/// Clocks grow with moves, and no letter is later than its sender.
pub fn law_clocks()
    ensures mover { ClockMoves }
    ensures others { OtherClocksStay }
    ensures letters { StampsKept }
    ensures run { ClocksInRuns }
{}

/// The epochs of firm links and desks and the freeze numbers that a node keeps are no younger than its clock; a letter is no
/// younger than its sender, nor are its link, its tell's stamp, its freeze number and its desk younger than the letter.
pub fn law_timed()
    ensures step { TimedKept }
    ensures run { TimedInRuns }
{}

/// An unanswered ask stands in exactly one place: parked, in a queue, or in a letter of its own.
pub fn law_one_place()
    ensures step { StandingKept }
    ensures run { StandingInRuns }
    ensures stands { StandsOnce }
    ensures place { OnePlace }
{}

/// Where the desk of a set is at a node, no waiting ask can be served there, and none can draw the desk away.
pub fn law_served()
    ensures step { ServedKept }
    ensures run { ServedInRuns }
{}

/// A `try` is answered with `true` exactly where the client's node can grant the mode, and nothing else is answered so.
pub fn law_exact_try()
    ensures tells { TryIsExact }
    ensures only { TriesAreExact }
    ensures run { TriesInRuns }
{}

/// A node has locks and unanswered asks of its own clients alone, made in its own moves, and letters are of sets of the script.
pub fn law_homes()
    ensures step { HomesKept }
    ensures run { HomesInRuns }
    ensures sound { HomesSound }
    ensures stamps { StampsApart }
{}

/// In a run of so many moves each line names what is of the script, no number in it is above the number of moves,
/// and the lines add no more locks than there are moves.
pub fn law_lines()
    ensures within { LinesInRuns }
    ensures added { FewAdded }
{}
