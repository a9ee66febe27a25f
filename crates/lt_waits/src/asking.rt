ghost use Rattle.std.specs.Prelude.{◌≡◌, length, IfOk};
ghost use Rattle.lt_spec.specs.Holdings.{waits_for};
ghost use Rattle.lt_world.specs.Fields.{world_of};
ghost use Rattle.lt_waits.specs.Serves.{Tells};

use crate::graph::WaitGraph;
use lt_script::Script;
use lt_world::World;
use std::alloc::{AllocError, Global};

/// Asks of each two clients of the script whether the first waits for the second in the world.
pub(crate) fn wait_graph(
    alloc: Global,
    script: &Script,
    world: &World,
) -> Result<WaitGraph, AllocError>
    requires { world.now.script ≡ script.now }
    ensures clients { IfOk result (λ graph. graph.clients ≡ length script.now.clients) }
    ensures told { IfOk result (λ graph. Tells graph (waits_for script.now (world_of world.now))) }
{
    let mut pairs = Vec::new(alloc);
    for client in 0..script.clients() {
        world.push_waits(&mut pairs, client)?;
    }
    Ok(WaitGraph::new(script.clients(), pairs))
}
