ghost use Rattle.std.specs.Prelude.{◌≡◌, IsFalse, IsTrue, length, map};
ghost use Rattle.std.specs.String.{string_bytes};
ghost use Rattle.lt_waits.specs.Serves.{ServesReport, ServesWhy};
ghost use Rattle.lt_waits.specs.Words.{asks_why};

use crate::answer::Answer;
use crate::reasons::Reasons;
use crate::waits::Waits;
use lt_call::answer;
use lt_io::{Sink, Source};
use std::alloc::Global;

/// Reads a script and the journal of a run of it that ended at rest, and writes the report of who waits for whom at
/// its end; to the word `why`, why clients wait. The text is made whole before the first write. There are to be no
/// other words; else the source and the sink are left as they were.
pub fn serve<S: Source, K: Sink>(
    alloc: Global,
    words: &[String],
    source: &mut S,
    sink: &mut K,
) -> Answer
    ensures report { IsFalse (asks_why (map string_bytes words.now))
        → ServesReport S.state K.held K.faults K.pace (length words.now) result
        source.old source.new sink.old sink.new }
    ensures why { IsTrue (asks_why (map string_bytes words.now))
        → ServesWhy S.state K.held K.faults K.pace result source.old source.new sink.old sink.new }
{
    if asks_why(words) {
        return answer(alloc, &Reasons, &[], source, sink);
    }
    answer(alloc, &Waits, words, source, sink)
}

/// Whether the words are the word `why` alone.
pub(crate) fn asks_why(words: &[String]) -> bool
    ensures { result ≡ asks_why (map string_bytes words.now) }
{
    match words {
        [word] => word.as_str() == "why",
        _ => false,
    }
}
