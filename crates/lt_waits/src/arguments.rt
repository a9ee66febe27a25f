ghost use Rattle.std.specs.Prelude.{◌≡◌, ◌≢◌, length, map, IfOk, IfErr, IsFalse, IsTrue};
ghost use Rattle.std.specs.IoError.{error_kind};
ghost use Rattle.std.specs.String.{string_bytes};
ghost use Rattle.lt_waits.specs.Answers.{outcome_of};
ghost use Rattle.lt_waits.specs.Serves.{ServesReport, ServesWhy};
ghost use Rattle.lt_waits.specs.Words.{asks_why};

use crate::answer::Answer;
use crate::serving::serve;
use crate::waits::Waits;
use lt_call::Outcome;
use lt_io::{Sink, Source};
use std::alloc::Global;
use std::io::{self, ErrorKind};

/// What the program does with its words, if they can be had: words that aren't text are words too.
pub fn program<S: Source, K: Sink>(
    alloc: Global,
    words: &io::Result<Vec<String>>,
    source: &mut S,
    sink: &mut K,
) -> Answer
    ensures served { IfOk words.now (λ texts. IsFalse (asks_why (map string_bytes texts.items))
        → ServesReport S.state K.held K.faults K.pace (length texts.items) result
        source.old source.new sink.old sink.new) }
    ensures why { IfOk words.now (λ texts. IsTrue (asks_why (map string_bytes texts.items))
        → ServesWhy S.state K.held K.faults K.pace result source.old source.new sink.old sink.new) }
    ensures no_memory { IfErr words.now (λ error. error_kind error ≡ ErrorKind.OutOfMemory → outcome_of result ≡ Outcome.NoMemory) }
    ensures no_text { IfErr words.now (λ error. error_kind error ≢ ErrorKind.OutOfMemory → outcome_of result ≡ Outcome.Usage) }
    ensures unread { IfErr words.now (λ error. source.new ≡ source.old) }
    ensures unwritten { IfErr words.now (λ error. sink.new ≡ sink.old) }
{
    match words {
        Ok(words) => serve(alloc, words.as_slice(), source, sink),
        Err(_) => lt_call::program(alloc, &Waits, words, source, sink),
    }
}
