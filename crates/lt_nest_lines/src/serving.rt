ghost use Rattle.std.specs.Prelude.{length};
ghost use Rattle.lt_nest_lines.specs.Serves.{ServesLines};

use crate::answer::Answer;
use crate::nested::Nested;
use lt_call::answer;
use lt_io::{Sink, Source};
use std::alloc::Global;

/// Reads lines from the source to its end, and writes what they order to the sink. The text is made whole before
/// the first write. There are to be no words; else the source and the sink are left as they were.
pub fn serve<S: Source, K: Sink>(
    alloc: Global,
    words: &[String],
    source: &mut S,
    sink: &mut K,
) -> Answer
    ensures { ServesLines S.state K.held K.faults K.pace (length words.now) result
        source.old source.new sink.old sink.new }
{
    answer(alloc, &Nested, words, source, sink)
}
