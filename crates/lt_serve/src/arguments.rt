ghost use Rattle.std.specs.Prelude.{◌≡◌, ◌≢◌, [], map, IfOk, IfErr};
ghost use Rattle.std.specs.IoError.{error_kind};
ghost use Rattle.std.specs.String.{string_bytes};
ghost use Rattle.lt_words.specs.Grammar.{command_of};
ghost use Rattle.lt_serve.specs.Serves.{Ends, Serves};
ghost use Rattle.lt_serve.specs.declared.serving.TheConstants.{USUAL};

use crate::serving::{Served, USUAL, serve};
use crate::status::Status;
use lt_io::{Sink, Source};
use lt_runner::Gate;
use std::alloc::Global;
use std::io::{self, ErrorKind};
use std::thread::Threads;

/// What the program does with its words, if they can be had: words that aren't text are wrong words.
pub fn program<R: Threads + Sync, S: Source, K: Sink, G: Gate>(
    rt: &R,
    alloc: Global,
    words: &io::Result<Vec<String>>,
    source: &mut S,
    sink: &mut K,
    gate: &G,
) -> Served
    ensures ends { IfOk words.now (λ texts. Ends (command_of (map string_bytes texts.items)) result.status (S.state source.old) (S.state source.new) (K.faults sink.old) (K.faults sink.new)) }
    ensures served { IfOk words.now (λ texts. Serves S.state K.held K.faults K.pace USUAL.moves (command_of (map string_bytes texts.items)) result source.old source.new sink.old sink.new) }
    ensures no_memory { IfErr words.now (λ error. error_kind error ≡ ErrorKind.OutOfMemory
        → result.status ≡ Status.NoMemory) }
    ensures no_text { IfErr words.now (λ error. error_kind error ≢ ErrorKind.OutOfMemory
        → result.status ≡ Status.Usage) }
    ensures setup { result.setup ≡ USUAL }
    ensures no_run { IfErr words.now (λ error. result.run.entries ≡ []) }
    ensures unread { IfErr words.now (λ error. source.new ≡ source.old) }
    ensures unwritten { IfErr words.now (λ error. sink.new ≡ sink.old) }
{
    match words {
        Ok(words) => serve(rt, alloc, words.as_slice(), source, sink, gate),
        Err(error) if error.kind() == ErrorKind::OutOfMemory => {
            Served::without_run(alloc, USUAL, Status::NoMemory)
        }
        Err(_) => Served::without_run(alloc, USUAL, Status::Usage),
    }
}
