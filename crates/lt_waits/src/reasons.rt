ghost use Rattle.lt_checker.specs.Input.{WantsMemory};
ghost use Rattle.lt_checker.specs.declared.limits.TheConstants.{MAX_JOURNAL};
ghost use Rattle.lt_waits.specs.Serves.{IsWhyOf, IsUnfit};

use crate::answer::Answer;
use crate::saying::why;
use lt_call::Work;
use lt_checker::check_input;
use lt_io::Source;
use lt_law_own_lines::law_old_lines;
use std::alloc::Global;

/// To say why clients wait at the end of the run whose script and journal are read.
pub(crate) struct Reasons;

impl Work for Reasons {
    type Answer = Answer;

    ghost limit = { λ _. MAX_JOURNAL };

    ghost makes = { λ _ left text. IsWhyOf left text };

    ghost refuses = { λ _ left answer. IsUnfit left answer };

    ghost wants = { λ _ before after. WantsMemory before after };

    fn make<S: Source>(&self, alloc: Global, source: &mut S) -> Result<Vec<u8>, Answer> {
        let ended = match check_input(alloc, source) {
            Ok(ended) => ended,
            Err(error) => return Err(Answer::from(error)),
        };
        law_old_lines();
        let told = why(alloc, &ended.script, &ended.world);
        drop(ended);
        match told {
            Ok(text) => Ok(text),
            Err(_) => Err(Answer::NoMemory),
        }
    }
}
