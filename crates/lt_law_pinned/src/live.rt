ghost use Rattle.lt_law_pinned.specs.LiveCalls.{LiveCodesAre, LiveTextsAre, LiveWordsTold, LiveRefusalsTold, LiveCountsTold, LiveEndsTold, LiveRunsTold, LiveSharesTold};

/// What an answer of the program on live sessions says, field by field, and its exit statuses and texts.
///
/// Each clause names one field: with that field left out, or made weaker, the clause doesn't follow from the others.
pub fn law_live_told()
    ensures codes { LiveCodesAre }
    ensures texts { LiveTextsAre }
    ensures words { LiveWordsTold }
    ensures refusals { LiveRefusalsTold }
    ensures counts { LiveCountsTold }
    ensures ends { LiveEndsTold }
    ensures runs { LiveRunsTold }
    ensures shares { LiveSharesTold }
{}
