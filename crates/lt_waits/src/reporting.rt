ghost use Rattle.std.specs.Prelude.{◌≡◌, IfOk};
ghost use Rattle.lt_spec.specs.Rings.{waits_report};
ghost use Rattle.lt_world.specs.Fields.{world_of};
ghost use Rattle.lt_waits.specs.Serves.{waits_text};

use crate::asking::wait_graph;
use crate::lines::report_of;
use crate::voids::{push_voids, void_pairs};
use lt_script::Script;
use lt_world::World;
use std::alloc::{AllocError, Global};

/// The report of who waits for whom in a world of the script, with a line `void CLIENT OTHER` at its end for each client that
/// waits behind a void ask of the other one. Each pair of clients is asked once for either.
pub fn report(alloc: Global, script: &Script, world: &World) -> Result<Vec<u8>, AllocError>
    requires { world.now.script ≡ script.now }
    ensures { IfOk result (λ text. text.items ≡ waits_text script.now (waits_report script.now (world_of world.now))) }
{
    let graph = wait_graph(alloc, script, world)?;
    let voids = void_pairs(alloc, script, world)?;
    let mut out = report_of(alloc, script, &graph)?;
    push_voids(&mut out, script, &voids)?;
    Ok(out)
}
