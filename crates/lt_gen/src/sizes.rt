ghost use Rattle.std.specs.Prelude.{◌≡◌};
ghost use Rattle.lt_spec.specs.Script.{most_nodes, most_clients};
ghost use Rattle.lt_gen.specs.Sizes.{can_make};

use lt_script::{
    MAX_CLIENTS, MAX_CLIENTS_OF_FIRST, MAX_CLIENTS_OF_NODE, MAX_CLIENTS_OF_SECOND, MAX_COMMANDS,
    MAX_NODES, MAX_NODES_OF_FIRST,
};

/// Whether a script of this version can be made with so many nodes, clients and commands.
pub fn can_make(version: u32, nodes: u32, clients: u32, commands: u32) -> bool
    ensures { result ≡ can_make version nodes clients commands }
{
    1 <= version
        && version <= 3
        && 1 <= nodes
        && nodes <= most_nodes(version)
        && 1 <= clients
        && clients <= most_clients(version)
        && clients <= nodes * u32::from(MAX_CLIENTS_OF_NODE)
        && commands <= MAX_COMMANDS
}

// The most nodes of a script of this version.
fn most_nodes(version: u32) -> u32
    ensures { result ≡ most_nodes version }
{
    match version {
        1 => u32::from(MAX_NODES_OF_FIRST),
        _ => u32::from(MAX_NODES),
    }
}

// The most clients of a script of this version.
fn most_clients(version: u32) -> u32
    ensures { result ≡ most_clients version }
{
    match version {
        1 => u32::from(MAX_CLIENTS_OF_FIRST),
        2 => u32::from(MAX_CLIENTS_OF_SECOND),
        _ => u32::from(MAX_CLIENTS),
    }
}
