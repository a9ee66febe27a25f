ghost use Rattle.std.specs.Prelude.{◌≡◌, ◌≢◌, [], length, IfOk, IfErr};
ghost use Rattle.std.specs.IoError.{error_kind};
ghost use Rattle.lt_live_serve.specs.Serves.{Serves};

use crate::served::Served;
use crate::serving::serve;
use crate::status::Status;
use lt_io::{Sink, Source};
use lt_runner::Gate;
use std::alloc::Global;
use std::io::{self, ErrorKind};
use std::thread::Threads;

/// What the program does with its words, if they can be had: words that aren't text are words too.
pub fn program<R: Threads + Sync, S: Source, K: Sink, G: Gate>(
    rt: &R,
    alloc: Global,
    words: &io::Result<Vec<String>>,
    source: &mut S,
    sink: &mut K,
    gate: &G,
) -> Served
    ensures served { IfOk words.now (λ texts. Serves S.state K.held K.faults K.pace (length texts.items) result source.old source.new sink.old sink.new) }
    ensures no_memory { IfErr words.now (λ error. error_kind error ≡ ErrorKind.OutOfMemory → result.status ≡ Status.NoMemory) }
    ensures no_text { IfErr words.now (λ error. error_kind error ≢ ErrorKind.OutOfMemory → result.status ≡ Status.Usage) }
    ensures no_run { IfErr words.now (λ error. (result.run.entries ≡ []) × (result.polled.items ≡ [])) }
    ensures unread { IfErr words.now (λ error. source.new ≡ source.old) }
    ensures unwritten { IfErr words.now (λ error. sink.new ≡ sink.old) }
{
    match words {
        Ok(words) => serve(rt, alloc, words.as_slice(), source, sink, gate),
        Err(error) => Served::without_run(alloc, status_of(error)),
    }
}

// Why there are no words.
fn status_of(error: &io::Error) -> Status
    ensures no_memory { error_kind error.now ≡ ErrorKind.OutOfMemory → result ≡ Status.NoMemory }
    ensures no_text { error_kind error.now ≢ ErrorKind.OutOfMemory → result ≡ Status.Usage }
{
    if error.kind() == ErrorKind::OutOfMemory {
        Status::NoMemory
    } else {
        Status::Usage
    }
}
