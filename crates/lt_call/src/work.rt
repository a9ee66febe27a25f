ghost use Rattle.std.specs.Prelude.{◌≡◌, ℕ, List, Option, IfOk, OnOk, IfErr};
ghost use Rattle.lt_io.specs.Streams.{IsReadWhole, SourceState};
ghost use Rattle.lt_call.specs.Outcomes.{IsRefusal, SaysOfSource};

use crate::outcome::Outcome;
use crate::status::Status;
use lt_io::Source;
use std::alloc::Global;

/// What a program is for that takes no words: it makes a text of an input.
pub trait Work {
    type Answer: Status;

    // How many bytes the input may have.
    ghost limit: { Self → ℕ };

    // The text may be made of what the source had left, where that is known.
    ghost makes: { Self → Option (List ℕ) → List ℕ → Type 0 };

    // What the source had left is refused by this answer.
    ghost refuses: { Self → Option (List ℕ) → Self.Answer → Type 0 };

    // Memory may be wanting where the source came from the first state to the second.
    ghost wants: { Self → SourceState → SourceState → Type 0 };

    /// Reads the source to its end, and makes the whole text.
    fn make<S: Source>(&self, alloc: Global, source: &mut S) -> Result<Vec<u8>, Self::Answer>
        ensures text { IfOk result (λ text. makes self.now (S.state source.old).left text.items) }
        ensures whole { OnOk result (IsReadWhole (limit self.now) (S.state source.old) (S.state source.new)) }
        ensures reading { IfErr result (λ answer. SaysOfSource (limit self.now) (Self.Answer.outcome answer) (S.state source.old) (S.state source.new)) }
        ensures refused { IfErr result (λ answer. IsRefusal (refuses self.now (S.state source.old).left answer) (Self.Answer.outcome answer)) }
        ensures memory { IfErr result (λ answer. Self.Answer.outcome answer ≡ Outcome.NoMemory
            → wants self.now (S.state source.old) (S.state source.new)) };
}
