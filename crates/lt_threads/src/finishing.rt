// The logs of all runners.
ghost use Rattle.std.specs.Prelude.{◌≡◌, ◌≢◌, ◌≤◌, ◌↔◌, [], Err, IfOk, IsTrue, length, map, vec_capacity};
ghost use Rattle.lt_threads.specs.declared.joining.JoinError.TheVariants as errors;
ghost use Rattle.lt_threads.specs.Meeting.{IsCrew, AreCrewLogs, HaveAll, run_entries, log_of};

use crate::fetching::all_kept;
use crate::joining::JoinError;
use crate::meeting::meet_all;
use lt_merge::Log;
use lt_runner::Runner;
use lt_script::Script;
use std::alloc::{AllocError, Global};

/// The logs of all runners, in order of their nodes, as `merge` takes them.
///
/// All that it takes is the list of the logs. After an error all is dropped.
pub fn finish(alloc: Global, script: &Script, runners: Vec<Runner>) -> Result<Vec<Log>, JoinError>
    requires { IsCrew script.now runners.items }
    ensures logs { IfOk result (λ logs. AreCrewLogs script.now runners.items logs.items) }
    ensures forgotten { (result ≡ Err errors.Forgotten) ↔ (¬ HaveAll runners.items) }
    ensures few { result ≢ Err errors.TooMany }
{
    if !have_all(&runners) {
        return Err(JoinError::Forgotten);
    }
    let logs = all_logs(alloc, script, runners)?;
    Ok(logs)
}

/// The logs of runners that have forgotten nothing.
pub(crate) fn all_logs(
    alloc: Global,
    script: &Script,
    mut runners: Vec<Runner>,
) -> Result<Vec<Log>, AllocError>
    requires crew { IsCrew script.now runners.items }
    requires all { HaveAll runners.items }
    ensures { IfOk result (λ logs. AreCrewLogs script.now runners.items logs.items) }
{
    let logs = Vec::with_capacity(alloc, usize::from(script.nodes()))?;
    meet_all(&mut runners);
    all_kept(&runners);
    Ok(take_logs(runners, logs))
}

// Adds the logs of the runners.
#[tactic(auto, using(crate::proofs::Logs::log_taken, crate::proofs::Whole::first_has, crate::proofs::Whole::rest_have))]
fn take_logs(mut runners: Vec<Runner>, mut logs: Vec<Log>) -> Vec<Log>
    requires all { HaveAll runners.items }
    requires empty { logs.items ≡ [] }
    requires room { length runners.items ≤ vec_capacity logs }
    ensures { map run_entries result.items ≡ map log_of runners.items }
{
    while !runners.is_empty() {
        let runner = runners.remove(0);
        match runner.into_log() {
            Some(log) => logs.push_reserved(log),
            None => unreachable!(),
        }
    }
    logs
}

/// Whether no runner has forgotten moves or commands.
#[tactic(auto, using(crate::proofs::Whole::next_has, crate::proofs::Whole::one_has, crate::proofs::Whole::all_have))]
pub(crate) fn have_all(runners: &[Runner]) -> bool
    ensures { IsTrue result ↔ HaveAll runners.now }
{
    for place in 0..runners.len() {
        if !runners[place].has_all() {
            return false;
        }
    }
    true
}
