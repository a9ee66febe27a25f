// Stations and callers of a script.
ghost use Rattle.std.specs.Prelude.{◌≡◌, ◌≤◌, ◌<◌, ◌+◌, None, length, IfOk, OnOk};
ghost use Rattle.lt_spec.specs.Script.{IsScript};
ghost use Rattle.lt_spec.specs.declared.limits.TheConstants.{MAX_COMMANDS};
ghost use Rattle.lt_spec.specs.NodeMove.{commands_of};
ghost use Rattle.lt_live_serve.specs.Serves.{among, IsFirstOver};
ghost use Rattle.lt_live_serve.specs.Completing.{IsNewCaller, CanCall, AreNew, AreNewCallers, AreServing};

use crate::callers::Caller;
use crate::completing::are_kept;
use crate::limits::MOVES;
use lt_live::{Session, Station, equal_share, open};
use lt_modes::Command;
use lt_script::Script;
use std::alloc::{AllocError, Global};

/// The stations of all nodes of the script, and the callers of all clients, of whom none has submitted a command.
#[tactic(auto, using(crate::proofs::Beside::are_new, crate::proofs::Beside::first_serving))]
pub(crate) fn begin(
    alloc: Global,
    script: &Script,
) -> Result<(Vec<Station>, Vec<Caller>), AllocError>
    requires kept { IsScript script.now }
    requires shared { IsFirstOver script.now None }
    ensures { IfOk result (λ made. AreServing script.now made.0.items made.1.items) }
{
    let bare = script.without_commands(alloc)?;
    let moves = u64::from(MOVES);
    let share = equal_share(&bare);
    let most = u64::from(share);
    let (stations, sessions) = open(alloc, &bare, moves, places_for(share), most)?;
    are_kept(&stations);
    let callers = callers_of(alloc, script, sessions)?;
    Ok((stations, callers))
}

// How many places the ring of a session has: one for each command that it may submit, and one at least.
fn places_for(share: u32) -> u32
    requires { share ≤ MAX_COMMANDS }
    ensures some { (0 < result) × (result ≤ MAX_COMMANDS) }
    ensures roomy { share ≤ result }
{
    share.max(1)
}

// A caller for each session.
#[tactic(auto, using(crate::proofs::Beside::no_caller))]
fn callers_of(
    alloc: Global,
    script: &Script,
    sessions: Vec<Session>,
) -> Result<Vec<Caller>, AllocError>
    requires kept { IsScript script.now }
    requires new { AreNew script.now sessions.items }
    ensures { IfOk result (λ callers. AreNewCallers script.now sessions.items callers.items) }
{
    let mut callers = Vec::new(alloc);
    for session in sessions {
        callers.push(caller_of(alloc, script, session)?)?;
    }
    Ok(callers)
}

#[tactic(auto, using(crate::proofs::Beside::asks_all))]
fn caller_of(alloc: Global, script: &Script, session: Session) -> Result<Caller, AllocError>
    requires kept { IsScript script.now }
    requires session { CanCall script.now session }
    ensures { IfOk result (IsNewCaller script.now session) }
{
    let Ok(commands) = commands_of(alloc, script, session.client()) else {
        drop(session);
        return Err(AllocError);
    };
    Ok(Caller {
        session,
        commands,
        next: 0,
        heard: Vec::new(alloc),
    })
}

// The commands of the client, in order.
#[tactic(auto, using(crate::proofs::Completed::among_all))]
fn commands_of(alloc: Global, script: &Script, client: u16) -> Result<Vec<Command>, AllocError>
    ensures { IfOk result (λ commands. commands.items ≡ commands_of script.now client) }
{
    let mut commands = Vec::new(alloc);
    for place in 0..script.commands() {
        push_own(&mut commands, script, client, place)?;
    }
    Ok(commands)
}

// Adds the command at this place, where it is the client's.
#[tactic(auto, using(crate::proofs::Completed::pushed_own, crate::proofs::Completed::pushed_other))]
fn push_own(
    commands: &mut Vec<Command>,
    script: &Script,
    client: u16,
    place: u64,
) -> Result<(), AllocError>
    requires place { place < length script.now.commands }
    requires before { commands.old.items ≡ among script.now client place }
    ensures { OnOk result (commands.new.items ≡ among script.now client (place + 1)) }
{
    let (other, command) = script.command(place);
    if other == client {
        commands.push(command)?;
    }
    Ok(())
}
