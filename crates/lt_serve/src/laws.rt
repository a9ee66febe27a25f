ghost use Rattle.std.specs.Prelude.{◌≡◌, ℕ, List, Option, length};
ghost use Rattle.lt_modes.specs.Script.{ScriptData};
ghost use Rattle.lt_spec.specs.World.{Logged};
ghost use Rattle.lt_spec.specs.FixedOrder.{first_run};
ghost use Rattle.lt_words.specs.declared.command.Command.{Command};
ghost use Rattle.lt_serve.specs.declared.status.Status.{Status};
ghost use Rattle.lt_serve.specs.declared.status.Status.TheVariants.{Stuck};
ghost use Rattle.lt_serve.specs.Causes.{HasStatusCause, MayGetStuck};
ghost use Rattle.lt_serve.specs.TopCall.{Did};
ghost use Rattle.lt_serve.specs.declared.schedule.Schedule.TheVariants.{First};
ghost use Rattle.lt_serve.specs.Schedules.{AreInOrder};
ghost use Rattle.lt_serve.specs.Literals.{CodesAre, TextsAre, SoakLimitsAre, SoakIs};

use lt_gen::law_generated;

/// What the exit statuses, their texts, the limits and what `soak` makes and writes are.
pub fn law_literals()
    ensures codes { CodesAre }
    ensures texts { TextsAre }
    ensures limits { SoakLimitsAre }
    ensures soak { SoakIs }
{
    law_generated();
}

/// A run whose moves are in the order of `sim first` is the run of the fixed order.
pub fn law_fixed_order()
    ensures { (script : ScriptData) → (run : List Logged) → AreInOrder First script run
        → run ≡ first_run script (length run) }
{}

/// An answer that a run is stuck is that of a command that makes one, of a script that isn't ordered.
pub fn law_stuck()
    ensures { (moves : ℕ) → (asked : Option Command) → (status : Status)
        → (left : Option (List ℕ)) → (run : List Logged) → (old new : Option (List ℕ)) → Did moves asked status left run old new → HasStatusCause asked left status
        → status ≡ Stuck → MayGetStuck asked left }
{}
