ghost use Rattle.lt_law_pinned.specs.CallerCalls.{CallersTextsAre, CallersEndsTold, CallersTold};

use lt_live_callers::Caller;

/// What callers that were served are told, field by field, how their runs end, and the texts: the last clause of any
/// callers.
pub fn law_callers_told<C: Caller>()
    ensures texts { CallersTextsAre }
    ensures ends { CallersEndsTold }
    ensures callers { CallersTold C.goes }
{}
