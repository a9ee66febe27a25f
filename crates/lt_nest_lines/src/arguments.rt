ghost use Rattle.std.specs.Prelude.{◌≡◌, ◌≢◌, length, IfOk, IfErr};
ghost use Rattle.std.specs.IoError.{error_kind};
ghost use Rattle.lt_nest_lines.specs.Answers.{outcome_of};
ghost use Rattle.lt_nest_lines.specs.Serves.{ServesLines};

use crate::answer::Answer;
use crate::nested::Nested;
use lt_call::Outcome;
use lt_io::{Sink, Source};
use std::alloc::Global;
use std::io::{self, ErrorKind};

/// What the program does with its words, if they can be had: words that aren't text are words too.
pub fn program<S: Source, K: Sink>(
    alloc: Global,
    words: &io::Result<Vec<String>>,
    source: &mut S,
    sink: &mut K,
) -> Answer
    ensures served { IfOk words.now (λ texts. ServesLines S.state K.held K.faults K.pace (length texts.items) result source.old source.new sink.old sink.new) }
    ensures no_memory { IfErr words.now (λ error. error_kind error ≡ ErrorKind.OutOfMemory
        → outcome_of result ≡ Outcome.NoMemory) }
    ensures no_text { IfErr words.now (λ error. error_kind error ≢ ErrorKind.OutOfMemory
        → outcome_of result ≡ Outcome.Usage) }
    ensures unread { IfErr words.now (λ error. source.new ≡ source.old) }
    ensures unwritten { IfErr words.now (λ error. sink.new ≡ sink.old) }
{
    lt_call::program(alloc, &Nested, words, source, sink)
}
