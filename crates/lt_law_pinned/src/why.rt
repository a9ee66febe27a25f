ghost use Rattle.lt_waits.specs.Answers.{outcome_of};
ghost use Rattle.lt_law_pinned.specs.PlainCalls.{PlainlyTold};
ghost use Rattle.lt_law_pinned.specs.Reports.{writers_apart};
ghost use Rattle.lt_law_pinned.specs.WhyCalls.{WhyWordsAre, WhyRingsAre, WhyTold, IsWhyCall};

/// What an answer to the word `why` says, field by field, and which ring it may name.
pub fn law_why_told()
    ensures words { WhyWordsAre }
    ensures rings { WhyRingsAre }
    ensures calls { PlainlyTold IsWhyCall outcome_of 67108864 writers_apart }
    ensures why { WhyTold }
{}
