ghost use Rattle.lt_law_pinned.specs.EndCalls.{OrderEnds, LiveOrderEnds};

/// How the calls end, of any ordered script, and of the greatest script.
pub fn law_ends_told()
    ensures order { OrderEnds }
    ensures live { LiveOrderEnds }
{}
