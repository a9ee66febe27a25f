ghost use Rattle.std.specs.Prelude.{◌≡◌, IsTrue, IsNone, IfSome, OnSome, option_map};
ghost use Rattle.lt_spec.specs.World.{is_enabled, is_at_rest};
ghost use Rattle.lt_spec.specs.FixedOrder.{pick, count_turns};
ghost use Rattle.lt_world.specs.Choice.{choice_of};
ghost use Rattle.lt_world.specs.Fields.{world_of};
ghost use Rattle.lt_gen.specs.Generator.{draw_of};
ghost use Rattle.lt_serve.specs.Schedules.{scheduled};

use lt_gen::Draws;
use lt_world::{Choice, World};

/// Which of the enabled moves a simulation makes next: always the first one, or one that is drawn.
#[derive(Drop)]
pub enum Schedule {
    First,
    Drawn(Draws),
}

impl Schedule {
    /// The move that comes next, where one is enabled.
    pub fn choose(&mut self, world: &World) -> Option<Choice>
        ensures none { IsNone result → IsTrue (is_at_rest world.now.script (world_of world.now)) }
        ensures place { OnSome result (result ≡ option_map choice_of (pick world.now.script (world_of world.now)
            (scheduled self.old (count_turns world.now.script (world_of world.now))).0)) }
        ensures next { OnSome result (self.new
            ≡ (scheduled self.old (count_turns world.now.script (world_of world.now))).1) }
        ensures enabled { IfSome result (λ choice. IsTrue (is_enabled world.now.script (world_of world.now) choice.node choice.step)) }
    {
        match self {
            Schedule::First => world.pick(0),
            Schedule::Drawn(numbers) => draw(numbers, world),
        }
    }
}

// A move that is drawn from the enabled ones.
fn draw(numbers: &mut Draws, world: &World) -> Option<Choice>
    ensures none { IsNone result → IsTrue (is_at_rest world.now.script (world_of world.now)) }
    ensures place { OnSome result (result ≡ option_map choice_of (pick world.now.script (world_of world.now)
        (draw_of (count_turns world.now.script (world_of world.now)) numbers.old).0)) }
    ensures next { OnSome result (numbers.new ≡ (draw_of (count_turns world.now.script (world_of world.now)) numbers.old).1) }
    ensures enabled { IfSome result (λ choice. IsTrue (is_enabled world.now.script (world_of world.now) choice.node choice.step)) }
{
    let count = world.count();
    if count == 0 {
        return world.pick(0);
    }
    world.pick(numbers.draw(count))
}
