ghost use Rattle.lt_counts.specs.CountLaws.{CountNone, CountAll, CountExactly, CountApart};

/// What numbers to which lines are added say of all moves: who counts from none on, and then each time from the last
/// place on, has those of all moves.
pub fn law_counts()
    ensures none { CountNone }
    ensures all { CountAll }
    ensures exact { CountExactly }
    ensures apart { CountApart }
{}
