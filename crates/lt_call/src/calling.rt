ghost use Rattle.std.specs.Prelude.{◌≡◌, ◌≢◌, ◌⊎◌, length, IfOk, IfErr};
ghost use Rattle.std.specs.Io.KnownBytes.{Appends};
ghost use Rattle.std.specs.IoError.{error_kind};
ghost use Rattle.lt_io.specs.Streams.{AppendsPart, WritesByFewest, StopsByFewest};
ghost use Rattle.lt_call.specs.Calls.{Serves};
ghost use Rattle.lt_call.specs.Outcomes.{SaysOfSink};

use crate::outcome::Outcome;
use crate::status::Status;
use crate::work::Work;
use lt_io::{Sink, Source, write_all};
use std::alloc::Global;
use std::io::{self, ErrorKind};

/// What the program does with its words, if they can be had: words that aren't text are words too.
pub fn program<W: Work, S: Source, K: Sink>(
    alloc: Global,
    work: &W,
    words: &io::Result<Vec<String>>,
    source: &mut S,
    sink: &mut K,
) -> W::Answer
    ensures served { IfOk words.now (λ texts. Serves W.Answer.outcome (W.makes work.now) (W.refuses work.now) (W.wants work.now) (W.limit work.now)
        S.state K.held K.faults K.pace (length texts.items) result source.old source.new sink.old sink.new) }
    ensures no_memory { IfErr words.now (λ error. error_kind error ≡ ErrorKind.OutOfMemory → W.Answer.outcome result ≡ Outcome.NoMemory) }
    ensures no_text { IfErr words.now (λ error. error_kind error ≢ ErrorKind.OutOfMemory → W.Answer.outcome result ≡ Outcome.Usage) }
    ensures unread { IfErr words.now (λ error. source.new ≡ source.old) }
    ensures unwritten { IfErr words.now (λ error. sink.new ≡ sink.old) }
{
    match words {
        Ok(words) => answer(alloc, work, words.as_slice(), source, sink),
        Err(error) if error.kind() == ErrorKind::OutOfMemory => W::Answer::of(Outcome::NoMemory),
        Err(_) => W::Answer::of(Outcome::Usage),
    }
}

/// Reads the source to its end, and writes the text of the work to the sink. The text is made whole before the first
/// write. There are to be no words; else the source and the sink are left as they were.
pub fn answer<W: Work, S: Source, K: Sink>(
    alloc: Global,
    work: &W,
    words: &[String],
    source: &mut S,
    sink: &mut K,
) -> W::Answer
    ensures { Serves W.Answer.outcome (W.makes work.now) (W.refuses work.now) (W.wants work.now) (W.limit work.now)
        S.state K.held K.faults K.pace (length words.now) result source.old source.new sink.old sink.new }
{
    if !words.is_empty() {
        return W::Answer::of(Outcome::Usage);
    }
    match work.make(alloc, source) {
        Ok(text) => write_text(sink, &text),
        Err(answer) => answer,
    }
}

// Writes the text.
fn write_text<A: Status, K: Sink>(sink: &mut K, text: &[u8]) -> A
    ensures written { (A.outcome result ≡ Outcome.Done) ⊎ (A.outcome result ≡ Outcome.WriteFault) }
    ensures all { A.outcome result ≡ Outcome.Done → Appends (K.held sink.old) (K.held sink.new) text.now }
    ensures part { A.outcome result ≡ Outcome.WriteFault → AppendsPart (K.held sink.old) (K.held sink.new) text.now }
    ensures few { A.outcome result ≡ Outcome.Done
        → WritesByFewest (K.pace sink.old) (K.pace sink.new) (length text.now) }
    ensures few_failed { A.outcome result ≡ Outcome.WriteFault → StopsByFewest (K.pace sink.old) (K.pace sink.new)
        (K.held sink.old) (K.held sink.new) text.now }
    ensures writing { SaysOfSink (A.outcome result) (K.faults sink.old) (K.faults sink.new) }
{
    match write_all(sink, text) {
        Ok(()) => A::of(Outcome::Done),
        Err(_) => A::of(Outcome::WriteFault),
    }
}
