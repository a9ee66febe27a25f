ghost use Rattle.lt_law_any.specs.AnyRun.{OrderRows, RunsSay, SoaksSay, OthersSay};

/// What an answer says of the run that a command made, and what it writes, of any script. `check`, `order` and `make`
/// are here too.
pub fn law_any_run()
    ensures order { OrderRows }
    ensures runs { RunsSay }
    ensures soaks { SoaksSay }
    ensures others { OthersSay }
{}
