ghost use Rattle.std.specs.Prelude.{◌≡◌, ◌<◌, ◌≤◌, [], None, IsTrue, IfOk, OnOk};
ghost use Rattle.lt_spec.specs.Script.{IsScript, IsShort};
ghost use Rattle.lt_spec.specs.World.{is_at_rest, full_node};
ghost use Rattle.lt_spec.specs.declared.moves.TheConstants.{MAX_MOVES};
ghost use Rattle.lt_world.specs.Fields.{world_of};
ghost use Rattle.lt_threads.specs.Threads.{StaysWithin};
ghost use Rattle.lt_serve.specs.Schedules.{AreInOrder};
ghost use Rattle.lt_serve.specs.Endings.{RanTo, StopsInTime, status_of_end};

use crate::schedule::Schedule;
use lt_law_ordered::law_ordered;
use lt_law_promises::law_promised;
use lt_merge::Run;
use lt_script::Script;
use lt_spec::Ending;
use lt_world::World;
use std::alloc::{AllocError, Global};

/// Makes the moves of a script by this schedule, until the world is at rest or a node that has made as many as it may
/// could make another.
#[tactic(auto, using(crate::proofs::Answering::ran_to))]
pub(crate) fn simulate(
    alloc: Global,
    script: &Script,
    moves: u32,
    schedule: Schedule,
) -> Result<(Ending, Run), AllocError>
    requires kept { IsScript script.now }
    requires short { IsShort script.now }
    requires moves { (0 < moves) × (moves ≤ MAX_MOVES) }
    ensures ran { IfOk result (λ made. RanTo moves (status_of_end made.0) script.now made.1.entries) }
    ensures in_order { IfOk result (λ made. AreInOrder schedule script.now made.1.entries) }
    ensures in_time { IfOk result (λ made. StopsInTime moves script.now made.1.entries) }
{
    law_promised();
    law_ordered();
    let mut world = World::new(alloc, script, moves)?;
    make_moves(&mut world, schedule)?;
    let ending = world.ending();
    Ok((ending, world.into_run()))
}

fn make_moves(world: &mut World, mut schedule: Schedule) -> Result<(), AllocError>
    requires kept { IsScript world.old.script }
    requires start { world.old.run ≡ [] }
    requires limit { 0 < world.old.limit }
    ensures script { (world.new.script ≡ world.old.script) × (world.new.limit ≡ world.old.limit) }
    ensures in_order { OnOk result (AreInOrder schedule world.new.script world.new.run) }
    ensures in_time { OnOk result (StopsInTime world.new.limit world.new.script world.new.run) }
    ensures within { OnOk result (StaysWithin world.new.limit world.new.script world.new.run) }
    ensures over { OnOk result (full_node world.new.script world.new.limit world.new.run ≡ None
        → IsTrue (is_at_rest world.new.script (world_of world.new))) }
{
    while world.full().is_none() {
        let Some(choice) = schedule.choose(world) else {
            return Ok(());
        };
        world.step(choice)?;
    }
    Ok(())
}
