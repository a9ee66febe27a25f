ghost use Rattle.lt_checker.specs.Input.{WantsMemory};
ghost use Rattle.lt_checker.specs.declared.limits.TheConstants.{MAX_JOURNAL};
ghost use Rattle.lt_waits.specs.Serves.{IsReportOf, IsUnfit};

use crate::answer::Answer;
use crate::reporting::report;
use lt_call::Work;
use lt_checker::check_input;
use lt_io::Source;
use lt_law_own_lines::law_old_lines;
use lt_law_waiting::{law_reports, law_void_waits, law_waiting};
use std::alloc::Global;

/// To report who waits for whom at the end of the run whose script and journal are read.
pub(crate) struct Waits;

impl Work for Waits {
    type Answer = Answer;

    ghost limit = { λ _. MAX_JOURNAL };

    ghost makes = { λ _ left text. IsReportOf left text };

    ghost refuses = { λ _ left answer. IsUnfit left answer };

    ghost wants = { λ _ before after. WantsMemory before after };

    fn make<S: Source>(&self, alloc: Global, source: &mut S) -> Result<Vec<u8>, Answer> {
        let ended = match check_input(alloc, source) {
            Ok(ended) => ended,
            Err(error) => return Err(Answer::from(error)),
        };
        law_waiting();
        law_void_waits();
        law_old_lines();
        law_reports();
        let told = report(alloc, &ended.script, &ended.world);
        drop(ended);
        match told {
            Ok(text) => Ok(text),
            Err(_) => Err(Answer::NoMemory),
        }
    }
}
