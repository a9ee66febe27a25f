ghost use Rattle.std.specs.Prelude.{◌≡◌, ◌<◌, ◌≤◌, ◌*◌, ◌+◌, ◌++◌, ◌∷◌, ◌⊎◌, [], map, length, All, IfOk, OnOk, IsTrue};
ghost use Rattle.lt_spec.specs.Script.{IsScript, IsShort, IsRequest, IsOfVersion, most_nodes, most_clients};
ghost use Rattle.lt_spec.specs.declared.limits.TheConstants.{MAX_CLIENTS_OF_NODE, MAX_COMMANDS};
ghost use Rattle.lt_gen.specs.Sizes.{can_make};
ghost use Rattle.lt_gen.specs.Generator.{four_sets, drawn_client, clients_of, requests_in, script_of, HasSizes};

use crate::draws::Draws;
use crate::group::{Group, Sizes};
use lt_modes::Command;
use lt_script::Script;
use lt_text::push_number;
use std::alloc::{AllocError, Global};

/// A script of this version with four sets and so many nodes, clients and commands, the same one from the same seed.
///
/// Client `cI` is on node I modulo `nodes`. The clients take turns: each makes a few commands that take one lock and
/// give it up. In version 3 a client sometimes gives up what it waits for, or what a client of its node does.
pub fn script(
    alloc: Global,
    version: u8,
    nodes: u8,
    clients: u16,
    commands: u32,
    seed: u64,
) -> Result<Script, AllocError>
    requires { IsTrue (can_make version nodes clients commands) }
    ensures made { IfOk result (λ s. s ≡ script_of version nodes clients commands seed) }
    ensures sizes { IfOk result (HasSizes nodes 4 clients commands) }
    ensures kept { IfOk result IsScript }
    ensures short { IfOk result IsShort }
{
    let mut script = without_sets(alloc, version, nodes)?;
    add_sets(&mut script)?;
    add_clients(alloc, &mut script, clients)?;
    let sizes = Sizes {
        version,
        nodes,
        clients,
    };
    add_commands(alloc, &mut script, sizes, commands, Draws::new(seed))?;
    keeps(&script);
    Ok(script)
}

fn without_sets(alloc: Global, version: u8, nodes: u8) -> Result<Script, AllocError>
    requires version { (version ≡ 1) ⊎ ((version ≡ 2) ⊎ (version ≡ 3)) }
    requires some_node { 0 < nodes }
    requires few_nodes { nodes ≤ most_nodes version }
    ensures { IfOk result
        (λ s. s ≡ record { version = version; nodes = nodes; sets = []; clients = []; commands = [] }) }
{
    match version {
        1 => Script::new(alloc, nodes),
        2 => Script::new_v2(alloc, nodes),
        _ => Script::new_v3(alloc, nodes),
    }
}

// What a script keeps.
fn keeps(script: &Script)
    ensures { IsScript script.now }
{
    let _ = script.version();
}

fn add_sets(script: &mut Script) -> Result<(), AllocError>
    requires sets { script.old.sets ≡ [] }
    requires clients { script.old.clients ≡ [] }
    ensures { OnOk result (script.new ≡ record script.old { sets = four_sets }) }
{
    script.add_set(b"s0", 0)?;
    script.add_set(b"s1", 1)?;
    script.add_set(b"s2", 2)?;
    script.add_set(b"s3", 3)
}

fn add_clients(alloc: Global, script: &mut Script, clients: u16) -> Result<(), AllocError>
    requires few { clients ≤ most_clients script.old.version }
    requires on_nodes { clients ≤ script.old.nodes * MAX_CLIENTS_OF_NODE }
    requires sets { script.old.sets ≡ four_sets }
    requires none { script.old.clients ≡ [] }
    ensures { OnOk result
        (script.new ≡ record script.old { clients = clients_of script.old.nodes clients }) }
{
    let nodes = u16::from(script.nodes());
    for client in 0..clients {
        let name = client_name(alloc, client)?;
        script.add_client(&name, (client % nodes) as u8)?;
    }
    Ok(())
}

fn client_name(alloc: Global, client: u16) -> Result<Vec<u8>, AllocError>
    ensures { IfOk result (λ name. name.items ≡ drawn_client client) }
{
    let mut name = Vec::from_slice(alloc, b"c")?;
    push_number(&mut name, u64::from(client))?;
    Ok(name)
}

fn add_commands(
    alloc: Global,
    script: &mut Script,
    sizes: Sizes,
    commands: u32,
    mut draws: Draws,
) -> Result<(), AllocError>
    requires few { commands ≤ MAX_COMMANDS }
    requires some_node { 0 < sizes.nodes }
    requires some_client { 0 < sizes.clients }
    requires version { script.old.version ≡ sizes.version }
    requires clients { script.old.clients ≡ clients_of sizes.nodes sizes.clients }
    requires sets { script.old.sets ≡ four_sets }
    requires none { script.old.commands ≡ [] }
    ensures { OnOk result (script.new
        ≡ record script.old { commands = requests_in commands sizes commands 0 draws }) }
{
    let mut left = commands;
    let mut turn: u32 = 0;
    while left > 0 {
        let client = (turn % u32::from(sizes.clients)) as u16;
        let group = Group::drawn(&mut draws, sizes, client, left);
        let made = group.commands(alloc)?;
        add_turn(script, client, &made)?;
        left -= made.len() as u32;
        turn += 1;
    }
    Ok(())
}

// Adds the commands that this client makes in its turn.
fn add_turn(script: &mut Script, client: u16, commands: &[Command]) -> Result<(), AllocError>
    requires requests { All (λ command. IsRequest script.old.sets script.old.clients (client, command)) commands.now }
    requires modes { All (IsOfVersion script.old.version) commands.now }
    requires room { length script.old.commands + length commands.now ≤ MAX_COMMANDS }
    ensures { OnOk result (script.new ≡ record script.old {
      commands = script.old.commands ++ map (λ command. (client, command)) commands.now;
    }) }
{
    for command in commands {
        script.add_command(client, *command)?;
    }
    Ok(())
}
