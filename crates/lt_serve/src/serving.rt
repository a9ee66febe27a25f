ghost use Rattle.std.specs.Prelude.{◌≡◌, ◌<◌, ◌≤◌, ◌^◌, true, false, map, [], Some, IfOk, IfErr, OnOk};
ghost use Rattle.std.specs.String.{string_bytes};
ghost use Rattle.lt_call.specs.Outcomes.{SaysOfSource, IsEnding};
ghost use Rattle.lt_io.specs.Streams.{IsReadWhole};
ghost use Rattle.lt_spec.specs.declared.moves.TheConstants.{MAX_MOVES};
ghost use Rattle.lt_mail.specs.declared.opening.TheConstants.{MAX_CAPACITY};
ghost use Rattle.lt_threads.specs.declared.sharing.TheConstants.{MAX_WORKERS};
ghost use Rattle.lt_words.specs.Grammar.{command_of};
ghost use Rattle.lt_serve.specs.Causes.{IsRefusal, CanBeMade, WantsToRead, reads, limit_of};
ghost use Rattle.lt_serve.specs.Status.{outcome_of};
ghost use Rattle.lt_serve.specs.Serves.{Ends, Serves};
ghost use Rattle.lt_serve.specs.declared.serving.TheConstants.{USUAL};
ghost use Rattle.lt_serve.specs.TopCall.{JournalsBy};

use crate::checking::checked;
use crate::made::{Made, write_made};
use crate::making::printed;
use crate::ordering::order_told;
use crate::schedule::Schedule;
use crate::simulated::simulated;
use crate::soaking::soaked;
use crate::status::Status;
use crate::threaded::threaded;
use lt_gen::Draws;
use lt_io::{Sink, Source};
use lt_law_ends::law_never_cut;
use lt_merge::Run;
use lt_runner::Gate;
use lt_spec::MAX_MOVES;
use lt_words::Command;
use std::alloc::Global;
use std::thread::Threads;

/// How much a run may take.
#[derive(Clone, Copy, Debug, PartialEq, Eq)]
pub struct Setup {
    /// How many moves a node may make.
    pub moves: u32,
    /// How many letters a ring between two nodes holds.
    pub capacity: u32,
    /// How often a worker looks in vain for a move before it ends.
    pub patience: u32,
    /// How many workers share the nodes at most. No more begin than there are nodes, nor than 3 and one for each 32 nodes.
    pub workers: u8,
}

/// What `serve` takes.
pub const USUAL: Setup = Setup {
    moves: MAX_MOVES,
    capacity: 4,
    patience: 256,
    workers: 8,
};

/// What a command came to: its status, and the run that it made; and the setup that it was done with.
#[derive(Drop)]
pub struct Served {
    pub status: Status,
    pub run: Run,
    pub setup: Setup,
}

/// `serve_with` with the usual setup, with which no run is cut.
#[tactic(auto, using(crate::proofs::NeverCut::usual_is_far))]
pub fn serve<R: Threads + Sync, S: Source, K: Sink, G: Gate>(
    rt: &R,
    alloc: Global,
    words: &[String],
    source: &mut S,
    sink: &mut K,
    gate: &G,
) -> Served
    ensures ends { Ends (command_of (map string_bytes words.now)) result.status (S.state source.old) (S.state source.new) (K.faults sink.old) (K.faults sink.new) }
    ensures served { Serves S.state K.held K.faults K.pace USUAL.moves (command_of (map string_bytes words.now)) result source.old source.new sink.old sink.new }
    ensures setup { result.setup ≡ USUAL }
{
    serve_with(rt, alloc, USUAL, words, source, sink, gate)
}

/// Does what the words say, which don't have the program's name: reads the source, makes the run and writes its
/// journal to the sink, or what else the command is for. The text is made whole before the first write.
///
/// The words `make` and `soak` leave the source as it was, and so do words that are no command.
pub fn serve_with<R: Threads + Sync, S: Source, K: Sink, G: Gate>(
    rt: &R,
    alloc: Global,
    setup: Setup,
    words: &[String],
    source: &mut S,
    sink: &mut K,
    gate: &G,
) -> Served
    requires moves { (0 < setup.moves) × (setup.moves ≤ MAX_MOVES) }
    requires capacity { (0 < setup.capacity) × (setup.capacity ≤ MAX_CAPACITY) }
    requires workers { (0 < setup.workers) × (setup.workers ≤ MAX_WORKERS) }
    ensures ends { 2 ^ 30 ≤ setup.moves → Ends (command_of (map string_bytes words.now)) result.status (S.state source.old) (S.state source.new) (K.faults sink.old) (K.faults sink.new) }
    ensures served { Serves S.state K.held K.faults K.pace setup.moves (command_of (map string_bytes words.now)) result source.old source.new sink.old sink.new }
    ensures setup { result.setup ≡ setup }
{
    law_never_cut();
    answered(rt, alloc, setup, words, source, sink, gate)
}

// Does what the words say, up to so many moves of a node.
#[tactic(auto, using(crate::proofs::Completing::none_complete, crate::proofs::Completing::memory_complete))]
fn answered<R: Threads + Sync, S: Source, K: Sink, G: Gate>(
    rt: &R,
    alloc: Global,
    setup: Setup,
    words: &[String],
    source: &mut S,
    sink: &mut K,
    gate: &G,
) -> Served
    requires moves { (0 < setup.moves) × (setup.moves ≤ MAX_MOVES) }
    requires capacity { (0 < setup.capacity) × (setup.capacity ≤ MAX_CAPACITY) }
    requires workers { (0 < setup.workers) × (setup.workers ≤ MAX_WORKERS) }
    ensures served { Serves S.state K.held K.faults K.pace setup.moves (command_of (map string_bytes words.now)) result source.old source.new sink.old sink.new }
    ensures setup { result.setup ≡ setup }
{
    let command = match Command::from_words(alloc, words) {
        Ok(Some(command)) => command,
        Ok(None) => return Served::without_run(alloc, setup, Status::Usage),
        Err(_) => return Served::without_run(alloc, setup, Status::NoMemory),
    };
    match make(rt, alloc, setup, command, source, gate) {
        Ok(made) => write_made(sink, setup, made),
        Err(status) => Served::without_run(alloc, setup, status),
    }
}

impl Served {
    // No move was made.
    pub(crate) fn without_run(alloc: Global, setup: Setup, status: Status) -> Served
        ensures status { result.status ≡ status }
        ensures run { result.run.entries ≡ [] }
        ensures setup { result.setup ≡ setup }
    {
        Served {
            status,
            run: Run::new(alloc),
            setup,
        }
    }
}

// Does what a command is for, up to the writing of its text.
fn make<R: Threads + Sync, S: Source, G: Gate>(
    rt: &R,
    alloc: Global,
    setup: Setup,
    command: Command,
    source: &mut S,
    gate: &G,
) -> Result<Made, Status>
    requires moves { (0 < setup.moves) × (setup.moves ≤ MAX_MOVES) }
    requires capacity { (0 < setup.capacity) × (setup.capacity ≤ MAX_CAPACITY) }
    requires workers { (0 < setup.workers) × (setup.workers ≤ MAX_WORKERS) }
    requires possible { CanBeMade command }
    ensures ended { IfOk result (λ made. IsEnding (outcome_of made.ending)) }
    ensures does { IfOk result (λ made. JournalsBy setup.moves command made.ending (S.state source.old).left made.run.entries made.text.items) }
    ensures whole { OnOk result (reads (Some command) ≡ true
        → IsReadWhole (limit_of (Some command)) (S.state source.old) (S.state source.new)) }
    ensures reading { IfErr result (λ answer. reads (Some command) ≡ true
        → SaysOfSource (limit_of (Some command)) (outcome_of answer) (S.state source.old) (S.state source.new)) }
    ensures refused { IfErr result (IsRefusal command (S.state source.old).left) }
    ensures memory { IfErr result (λ answer. answer ≡ Status.NoMemory → reads (Some command) ≡ true
        → WantsToRead (Some command) (S.state source.old) (S.state source.new)) }
    ensures unread { reads (Some command) ≡ false → source.new ≡ source.old }
{
    match command {
        Command::SimFirst => simulated(alloc, setup.moves, Schedule::First, source),
        Command::Sim { seed } => {
            let schedule = Schedule::Drawn(Draws::new(seed));
            simulated(alloc, setup.moves, schedule, source)
        }
        Command::Make {
            version,
            nodes,
            clients,
            commands,
            seed,
        } => match printed(alloc, version, nodes, clients, commands, seed) {
            Ok(made) => Ok(made),
            Err(_) => Err(Status::NoMemory),
        },
        Command::Check => checked(alloc, source),
        Command::Run => threaded(rt, alloc, setup, source, gate),
        Command::Soak { seed } => match soaked(rt, alloc, setup, seed, gate) {
            Ok(made) => Ok(made),
            Err(_) => Err(Status::NoMemory),
        },
        Command::Order => order_told(alloc, source),
    }
}
