// Runners that each appended commands: the script with the commands of all, and the run of it that they made.
ghost use Rattle.std.specs.Prelude.{◌≡◌, ◌↔◌, ◌<◌, ◌≤◌, ◌+◌, ◌++◌, true, false, length, take, drop, Err, IfOk, IfErr, OnOk};
ghost use Rattle.lt_modes.specs.Script.{ScriptData};
ghost use Rattle.lt_spec.specs.Script.{IsScript};
ghost use Rattle.lt_spec.specs.declared.limits.TheConstants.{MAX_COMMANDS};
ghost use Rattle.lt_spec.specs.NodeMove.{with_commands};
ghost use Rattle.lt_threads.specs.declared.joining.JoinError.TheVariants as errors;
ghost use Rattle.lt_threads.specs.Meeting.{AreShares, ShareScript, AreScripts, IsJoined, IsSharedRun, AreTooMany, HaveAll, commands_in};

use crate::finishing::{all_logs, have_all};
use lt_merge::{Run, merge};
use lt_runner::Runner;
use lt_script::{MAX_COMMANDS, Script};
use std::alloc::{AllocError, Global};

/// Why scripts or logs aren't joined.
#[derive(Clone, Copy, Debug, PartialEq, Eq)]
pub enum JoinError {
    /// Some runner has forgotten moves or commands.
    Forgotten,
    /// They have more commands together than the text of a script may have.
    TooMany,
    NoMemory,
}

impl From<AllocError> for JoinError {
    ghost from_gives = { λ _ e. e ≡ errors.NoMemory };

    fn from(_: AllocError) -> JoinError {
        JoinError::NoMemory
    }
}

/// The script with the commands that each runner appended, and the run of it that they have made.
///
/// A client's commands stand in it in the order in which its node appended them. After an error all is dropped.
pub fn finish_joined(alloc: Global, runners: Vec<Runner>) -> Result<(Script, Run), JoinError>
    requires { ShareScript runners.items }
    ensures run { IfOk result (λ made. IsSharedRun runners.items made.0 made.1.entries) }
    ensures forgotten { (result ≡ Err errors.Forgotten) ↔ (¬ HaveAll runners.items) }
    ensures many { IfErr result (λ error. error ≡ errors.TooMany → AreTooMany runners.items) }
    ensures told { HaveAll runners.items → AreTooMany runners.items → result ≡ Err errors.TooMany }
{
    let script = join_scripts(alloc, &runners)?;
    let logs = all_logs(alloc, &script, runners)?;
    let run = merge(alloc, logs)?;
    Ok((script, run))
}

/// The script with the commands that each runner appended, node by node: of it the runners are a crew.
#[tactic(auto, using(crate::proofs::Shares::many))]
pub fn join_scripts(alloc: Global, runners: &[Runner]) -> Result<Script, JoinError>
    requires { ShareScript runners.now }
    ensures joined { IfOk result (IsJoined runners.now) }
    ensures forgotten { (result ≡ Err errors.Forgotten) ↔ (¬ HaveAll runners.now) }
    ensures many { IfErr result (λ error. error ≡ errors.TooMany → AreTooMany runners.now) }
    ensures told { HaveAll runners.now → AreTooMany runners.now → result ≡ Err errors.TooMany }
{
    if !have_all(runners) {
        return Err(JoinError::Forgotten);
    }
    are_scripts(runners);
    if !have_room(runners) {
        return Err(JoinError::TooMany);
    }
    let script = gather_commands(alloc, runners)?;
    script.nodes();
    Ok(script)
}

// Whether the text of one script may have the commands of all.
#[tactic(auto, using(crate::proofs::Shares::count_next, crate::proofs::Shares::count_past, crate::proofs::Shares::count_all))]
fn have_room(runners: &[Runner]) -> bool
    ensures room { result ≡ true → length (commands_in runners.now) ≤ MAX_COMMANDS }
    ensures many { result ≡ false → MAX_COMMANDS < length (commands_in runners.now) }
{
    let mut count = 0;
    for place in 0..runners.len() {
        let own = runners[place].commands();
        if own > u64::from(MAX_COMMANDS) - count {
            return false;
        }
        count += own;
    }
    true
}

// What each runner has is a script.
fn are_scripts(runners: &[Runner])
    ensures { AreScripts runners.now }
{
    for k in 0..runners.len() {
        is_script(&runners[k]);
    }
}

fn is_script(runner: &Runner)
    ensures { IsScript runner.now.node.script }
{
    runner.commands();
}

#[tactic(auto, using(crate::proofs::Shares::gather_room, crate::proofs::Whole::one_has))]
fn gather_commands(alloc: Global, runners: &[Runner]) -> Result<Script, AllocError>
    requires shares { ShareScript runners.now }
    requires all { HaveAll runners.now }
    requires room { length (commands_in runners.now) ≤ MAX_COMMANDS }
    ensures { IfOk result (λ made. (script : ScriptData) → AreShares script runners.now → made ≡ with_commands script (commands_in runners.now)) }
{
    let mut script = runners[0].script().copy(alloc)?;
    for place in 1..runners.len() {
        add_commands(&mut script, runners[place].script())?;
    }
    Ok(script)
}

// Adds the commands of the other script, which is the same but for the commands.
#[tactic(auto, using(crate::proofs::Shares::add_first, crate::proofs::Shares::add_same, crate::proofs::Shares::add_room, crate::proofs::Shares::add_next, crate::proofs::Shares::add_all))]
fn add_commands(script: &mut Script, other: &Script) -> Result<(), AllocError>
    requires same { other.now ≡ with_commands script.old other.now.commands }
    requires room { length script.old.commands + length other.now.commands ≤ MAX_COMMANDS }
    ensures { OnOk result (script.new ≡ with_commands script.old (script.old.commands ++ other.now.commands)) }
{
    for place in 0..other.commands() {
        add_command(script, other, place)?;
    }
    Ok(())
}

// Adds the command at this place of the other script.
#[tactic(auto, using(crate::proofs::Shares::one_taken))]
fn add_command(script: &mut Script, other: &Script, place: u64) -> Result<(), AllocError>
    requires place { place < length other.now.commands }
    requires same { other.now ≡ with_commands script.old other.now.commands }
    requires room { length script.old.commands < MAX_COMMANDS }
    ensures { OnOk result (script.new ≡ with_commands script.old (script.old.commands ++ take 1 (drop place other.now.commands))) }
{
    other.nodes();
    let (client, command) = other.command(place);
    script.add_command(client, command)
}
