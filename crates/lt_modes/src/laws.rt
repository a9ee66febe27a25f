ghost use Rattle.lt_modes.specs.Modes.{conflicts};
ghost use Rattle.lt_modes.specs.FiveModes.{TableAsBefore, TakingAsBefore, BarsAsBefore, SixthByOthers, CoversAsBefore, SameBarsAsBefore, NoneBarredAsBefore};
ghost use Rattle.lt_modes.specs.ModeLaws.{IsSymmetric, IsEachBarred, UnionHasBoth, BarsByTable, CoversByTable, UnionBarsBoth, BelowItself, BelowInTurn, UnionBelow, BelowWithMore, ClearBothWays, ClearBelow, CoveredIsClear, CopyIsNotTaking};

/// The algebra of sets of modes. But for the clauses that name the conflict table it holds by any table.
pub fn law_modes()
    ensures symmetric { IsSymmetric conflicts }
    ensures each_barred { IsEachBarred conflicts }
    ensures union { UnionHasBoth }
    ensures bars { BarsByTable }
    ensures covers { CoversByTable }
    ensures union_bars { UnionBarsBoth }
    ensures below_itself { BelowItself }
    ensures below_in_turn { BelowInTurn }
    ensures union_below { UnionBelow }
    ensures below_with_more { BelowWithMore }
    ensures clear_both_ways { ClearBothWays }
    ensures clear_below { ClearBelow }
    ensures covered_is_clear { CoveredIsClear }
    ensures copy_is_not_taking { CopyIsNotTaking }
{}

/// What the sixth mode leaves as it is: for sets and modes of the five others, what conflicts, what a set bars and
/// covers, and whether two sets bar the same, are as by the table of the five alone.
pub fn law_five_modes()
    ensures table { TableAsBefore }
    ensures taking { TakingAsBefore }
    ensures bars { BarsAsBefore }
    ensures sixth { SixthByOthers }
    ensures covers { CoversAsBefore }
    ensures same { SameBarsAsBefore }
    ensures none { NoneBarredAsBefore }
{}
