ghost use Rattle.std.specs.Prelude.{◌≡◌};
ghost use Rattle.lt_spec.specs.Script.{most_nodes, most_clients};

use lt_spec::{
    MAX_CLIENTS, MAX_CLIENTS_OF_FIRST, MAX_CLIENTS_OF_SECOND, MAX_NODES, MAX_NODES_OF_FIRST,
};

/// The most nodes of a script of this version.
pub(crate) fn most_nodes(version: u8) -> u8
    ensures { result ≡ most_nodes version }
{
    match version {
        1 => MAX_NODES_OF_FIRST,
        _ => MAX_NODES,
    }
}

/// The most clients of a script of this version.
pub(crate) fn most_clients(version: u8) -> u16
    ensures { result ≡ most_clients version }
{
    match version {
        1 => MAX_CLIENTS_OF_FIRST,
        2 => MAX_CLIENTS_OF_SECOND,
        _ => MAX_CLIENTS,
    }
}
