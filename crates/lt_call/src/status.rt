ghost use Rattle.std.specs.Prelude.{◌≡◌};
ghost use Rattle.lt_call.specs.declared.outcome.Outcome.{Outcome};
ghost use Rattle.lt_call.specs.Outcomes.{IsPlain};

use crate::outcome::Outcome;

/// How a program's call ended.
pub trait Status {
    // What it says of reading and of writing.
    ghost outcome: { Self → Outcome };

    fn outcome(&self) -> Outcome
        ensures { result ≡ outcome self.now };

    /// The status with this outcome, which tells nothing more.
    fn of(plain: Outcome) -> Self
        requires { IsPlain plain }
        ensures { outcome result ≡ plain };
}
