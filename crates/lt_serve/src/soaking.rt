ghost use Rattle.std.specs.Prelude.{◌≡◌, ◌<◌, ◌≤◌, IfOk};
ghost use Rattle.lt_spec.specs.declared.moves.TheConstants.{MAX_MOVES};
ghost use Rattle.lt_mail.specs.declared.opening.TheConstants.{MAX_CAPACITY};
ghost use Rattle.lt_threads.specs.declared.sharing.TheConstants.{MAX_WORKERS};
ghost use Rattle.lt_serve.specs.TopCall.{Soaks, soak_text};

use crate::made::Made;
use crate::serving::Setup;
use crate::status::Status;
use crate::threaded::run_nodes;
use lt_journal::write_closing;
use lt_merge::Run;
use lt_runner::Gate;
use lt_script::Script;
use lt_tally::Summary;
use std::alloc::{AllocError, Global};
use std::thread::Threads;

/// The run of the greatest script, made from the seed, on threads, and what it came to.
pub(crate) fn soaked<R: Threads + Sync, G: Gate>(
    rt: &R,
    alloc: Global,
    setup: Setup,
    seed: u64,
    gate: &G,
) -> Result<Made, AllocError>
    requires moves { (0 < setup.moves) × (setup.moves ≤ MAX_MOVES) }
    requires capacity { (0 < setup.capacity) × (setup.capacity ≤ MAX_CAPACITY) }
    requires workers { (0 < setup.workers) × (setup.workers ≤ MAX_WORKERS) }
    ensures { IfOk result (λ made. Soaks seed setup.moves made.ending made.run.entries made.text.items) }
{
    let script = lt_gen::script(alloc, 1, 16, 64, 4_096, seed)?;
    let (end, run) = run_nodes(rt, alloc, &script, setup, gate)?;
    let ending = Status::from(end);
    let text = soak_text(alloc, &script, &run, ending.cut())?;
    Ok(Made { ending, run, text })
}

// Where the run was cut, or else what it came to.
fn soak_text(
    alloc: Global,
    script: &Script,
    run: &Run,
    cut: Option<u8>,
) -> Result<Vec<u8>, AllocError>
    ensures { IfOk result (λ text. text.items ≡ soak_text script.now run.now.entries cut) }
{
    if cut.is_some() {
        return write_closing(alloc, script, run, cut);
    }
    let summary = Summary::new(alloc, script, run)?;
    let text = format!(in alloc; "{summary}")?;
    Ok(text.into_bytes())
}
