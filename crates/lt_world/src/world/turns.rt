ghost use Rattle.std.specs.Prelude.{◌≡◌, ◌≢◌, ◌<◌, None, ℕ, length, slice_index_or, Some, IfOk};
ghost use Rattle.lt_modes.specs.declared.moves.Step.TheVariants.{Act};
ghost use Rattle.lt_spec.specs.World.{line_client};
ghost use Rattle.lt_world.specs.Fields.{AreTurns, turn_of, IsAfterRun, world_in, OthersStand, lines_of_last_move, with_turn, is_act_of, other_named};

use crate::network::Network;
use lt_modes::{Event, Step};
use lt_script::Script;
use lt_turns::Turns;
use std::alloc::{AllocError, Global};

/// The clients that can act, each by the number of commands that it has made.
pub(super) fn turns_of(
    alloc: Global,
    script: &Script,
    network: &Network,
) -> Result<Turns, AllocError>
    requires { IsAfterRun script.now network.now }
    ensures { IfOk result (λ turns. AreTurns script.now turns (world_in script.now network.now)) }
{
    let mut turns = Turns::new(alloc, script.clients())?;
    for client in 0..script.clients() {
        turns.set(client, turn_of(script, network, client));
    }
    Ok(turns)
}

/// Notes who can act after the last move, which was this step: the client whose command it was and those that its lines
/// name may do so from now on, or no more.
pub(super) fn note_turns(turns: &mut Turns, script: &Script, network: &Network, step: Step)
    requires holds { IsAfterRun script.now network.now }
    requires some { 0 < length network.now.run.entries }
    requires count { length turns.old ≡ length script.now.clients }
    requires others { OthersStand script.now turns.old (world_in script.now network.now) step (lines_of_last_move network.now.run.entries) 0 }
    ensures { AreTurns script.now turns.new (world_in script.now network.now) }
{
    note_named(turns, script, network, step);
    if let Step::Act(client) = step {
        note_turn(turns, script, network, client);
    }
}

// Notes it of the clients that the lines of the last move name.
fn note_named(turns: &mut Turns, script: &Script, network: &Network, step: Step)
    requires holds { IsAfterRun script.now network.now }
    requires some { 0 < length network.now.run.entries }
    requires count { length turns.old ≡ length script.now.clients }
    requires others { OthersStand script.now turns.old (world_in script.now network.now) step (lines_of_last_move network.now.run.entries) 0 }
    ensures count { length turns.new ≡ length script.now.clients }
    ensures others { (c : ℕ) → c < length script.now.clients → step ≢ Act c
        → slice_index_or turns.new c None ≡ turn_of script.now (world_in script.now network.now) c }
{
    let lines = network.run.events(network.run.len() - 1);
    for line in lines {
        note_line(turns, script, network, step, line);
    }
}

// Notes it of the client that the line names, where it names one, unless the step is a command of this client.
fn note_line(turns: &mut Turns, script: &Script, network: &Network, step: Step, line: &Event)
    requires holds { IsAfterRun script.now network.now }
    requires count { length turns.old ≡ length script.now.clients }
    ensures { turns.new ≡ with_turn script.now (world_in script.now network.now)
        (other_named step (line_client line.now)) turns.old }
{
    if let Some(client) = client_of(line) {
        if !is_act_of(step, client) {
            note_turn(turns, script, network, client);
        }
    }
}

// Whether the step is a command of this client.
fn is_act_of(step: Step, client: u16) -> bool
    ensures { result ≡ is_act_of step client }
{
    match step {
        Step::Act(actor) => actor == client,
        Step::Take(_) => false,
    }
}

// Notes it of this client, where it is one of the script's.
fn note_turn(turns: &mut Turns, script: &Script, network: &Network, client: u16)
    requires holds { IsAfterRun script.now network.now }
    requires count { length turns.old ≡ length script.now.clients }
    ensures { turns.new ≡ with_turn script.now (world_in script.now network.now) (Some client) turns.old }
{
    if client < script.clients() {
        turns.set(client, turn_of(script, network, client));
    }
}

// How many commands the client has made, where it can make one more now.
fn turn_of(script: &Script, network: &Network, client: u16) -> Option<u64>
    requires holds { IsAfterRun script.now network.now }
    requires client { client < length script.now.clients }
    ensures { result ≡ turn_of script.now (world_in script.now network.now) client }
{
    let node = &network.nodes[usize::from(script.home(client))];
    if node.runnable(client) {
        Some(node.made(client))
    } else {
        None
    }
}

// The client that acts or is answered by the line.
fn client_of(line: &Event) -> Option<u16>
    ensures { result ≡ line_client line.now }
{
    match *line {
        Event::Grant { client, .. }
        | Event::Wait { client, .. }
        | Event::Try { client, .. }
        | Event::Unlock { client, .. }
        | Event::NotHeld { client, .. }
        | Event::Change { client, .. }
        | Event::DropAll { client, .. }
        | Event::Busy { client, .. }
        | Event::Withdraw { client, .. }
        | Event::Withdrawn { client, .. }
        | Event::Void { client, .. }
        | Event::Withheld { client, .. } => Some(client),
        Event::Copy { .. } | Event::Freeze { .. } | Event::Token { .. } => None,
    }
}
