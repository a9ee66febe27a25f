// A turn in its parts: a move is looked for, room is made for it, and it is made.
ghost use Rattle.std.specs.Prelude.{◌≡◌, ◌≢◌, IsOk, OnOk};
ghost use Rattle.lt_runner.specs.declared.choice.Choice.TheVariants as choices;
ghost use Rattle.lt_runner.specs.declared.turning.Found.TheVariants as finds;
ghost use Rattle.lt_runner.specs.Choices.{next_choice};
ghost use Rattle.lt_runner.specs.Kept.{SameRunner, AsSeen, CouldMove, IsFlushed, KeepsRings, FindEnds, MovedOne};
ghost use Rattle.lt_runner.specs.Ready.{HasMemoryFor};

use crate::choice::Choice;
use crate::runner::Runner;
use crate::turning::Found;
use std::alloc::AllocError;

impl Runner {
    /// Gives the rings what waits in the outboxes, and looks for a letter and then for a client that can act.
    pub fn find(&mut self) -> Found
        ensures seen { AsSeen self.old self.new }
        ensures flushed { IsFlushed self.new }
        ensures ends { FindEnds result self.new }
        ensures shown { next_choice self.old ≢ choices.Nothing → result ≢ finds.Quiet }
    {
        self.parts.as_mut().find()
    }

    /// Makes room for the move that was found. No log keeps 2^32 moves or events: that many are refused as memory is.
    pub fn reserve(&mut self, choice: Choice) -> Result<(), AllocError>
        requires chosen { next_choice self.old ≡ choice }
        requires could { CouldMove self.old }
        ensures seen { AsSeen self.old self.new }
        ensures chosen { next_choice self.new ≡ choice }
        ensures could { CouldMove self.new }
        ensures memory { OnOk result (HasMemoryFor choice self.new) }
        ensures full { HasMemoryFor choice self.old → IsOk result }
        ensures flushed { IsFlushed self.old → IsFlushed self.new }
    {
        self.parts.as_mut().reserve(choice)
    }

    /// Makes the move that was found.
    pub fn make(&mut self, choice: Choice)
        requires chosen { next_choice self.old ≡ choice }
        requires could { CouldMove self.old }
        requires memory { HasMemoryFor choice self.old }
        ensures same { SameRunner self.old self.new }
        ensures moved { MovedOne self.old self.new }
        ensures rings { KeepsRings self.old self.new }
    {
        self.parts.as_mut().make(choice);
    }
}
