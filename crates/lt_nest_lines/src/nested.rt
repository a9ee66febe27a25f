ghost use Rattle.std.specs.Prelude.{◌≡◌, ◌≤◌, length, Ok, IfOk, IfErr};
ghost use Rattle.lt_nest_lines.specs.declared.limits.TheConstants.{MAX_INPUT};
ghost use Rattle.lt_nest_lines.specs.Input.{input_of};
ghost use Rattle.lt_nest_lines.specs.Serves.{IsTextOf, IsWritten, IsUnfit, IsInputFault, LinesWantMemory};

use crate::answer::Answer;
use crate::input::Input;
use crate::limits::MAX_INPUT;
use crate::reading::{ReadError, read};
use crate::writing::report;
use lt_call::{Work, read_bytes};
use lt_io::Source;
use std::alloc::Global;

/// To write what comes of the lines that are read.
pub(crate) struct Nested;

impl Work for Nested {
    type Answer = Answer;

    ghost limit = { λ _. MAX_INPUT };

    ghost makes = { λ _ left text. IsWritten left text };

    ghost refuses = { λ _ left answer. IsUnfit left answer };

    ghost wants = { λ _ before after. LinesWantMemory before after };

    fn make<S: Source>(&self, alloc: Global, source: &mut S) -> Result<Vec<u8>, Answer> {
        let bytes = read_bytes::<Answer, S>(alloc, source, MAX_INPUT)?;
        text_of(alloc, &bytes)
    }
}

// The text of what these lines order.
fn text_of(alloc: Global, bytes: &[u8]) -> Result<Vec<u8>, Answer>
    requires few { length bytes.now ≤ MAX_INPUT }
    ensures text { IfOk result (λ text. IsTextOf bytes.now text.items) }
    ensures refused { IfErr result (IsInputFault bytes.now) }
{
    let input = input_of(alloc, bytes)?;
    match report(alloc, &input) {
        Ok(text) => Ok(text),
        Err(_) => Err(Answer::NoMemory),
    }
}

// What these lines say.
fn input_of(alloc: Global, bytes: &[u8]) -> Result<Input, Answer>
    requires few { length bytes.now ≤ MAX_INPUT }
    ensures input { IfOk result (λ input. input_of bytes.now ≡ Ok input) }
    ensures refused { IfErr result (IsInputFault bytes.now) }
{
    match read(alloc, bytes) {
        Ok(input) => Ok(input),
        Err(ReadError::Refused { line }) => Err(Answer::Refused { line }),
        Err(ReadError::Memory) => Err(Answer::NoMemory),
    }
}
