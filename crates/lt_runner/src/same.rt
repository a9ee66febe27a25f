// A runner lies in a pool, and goes on from what it was.
use crate::runner::Runner;
use lt_pool::Same;

impl Same for Runner {
    ghost use Rattle.lt_runner.specs.Kept.{Grew, grew_itself};

    ghost continues = { Grew };

    ghost continues_itself = { grew_itself };
}
