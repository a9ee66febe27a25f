ghost use Rattle.lt_law_pinned.specs.Examples.{OneLock, TwoWriters, CutShort, OrdersSay};
ghost use Rattle.lt_law_pinned.specs.OtherAnswers.{WordsSay, FaultSays, CheckSays, MakeSays, SoakSays, CountsSay, FailuresSay, UnwrittenSays, CompleteSays, OrderSays, EndsSay, ServesSay};

use lt_io::{Sink, Source};

/// What the answers to these inputs say, the last clause of any source and sink.
pub fn law_answers<S: Source, K: Sink>()
    ensures one_lock { OneLock }
    ensures two_writers { TwoWriters }
    ensures cut_short { CutShort }
    ensures words { WordsSay }
    ensures fault { FaultSays }
    ensures check { CheckSays }
    ensures make { MakeSays }
    ensures soak { SoakSays }
    ensures counts { CountsSay }
    ensures failures { FailuresSay }
    ensures unwritten { UnwrittenSays }
    ensures complete { CompleteSays }
    ensures orders { OrdersSay }
    ensures order { OrderSays }
    ensures ends { EndsSay }
    ensures serves { ServesSay S.state K.held K.faults K.pace }
{}
