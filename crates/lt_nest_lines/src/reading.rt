ghost use Rattle.std.specs.Prelude.{◌≡◌, ◌<◌, ◌-◌, ◌^◌, length, IfOk, IfErr, IsErr};
ghost use Rattle.lt_text.specs.Text.{lines, words};
ghost use Rattle.lt_script.specs.Reading.{says_nothing};
ghost use Rattle.lt_nest_lines.specs.Input.{AddsLine, BeginsWell, IsAdded, ReadsInput, input_after_line, input_of};
ghost use Rattle.lt_nest_lines.specs.declared.reading.ReadError.TheVariants as errors;

use crate::adding::add;
use crate::form::form_of;
use crate::input::Input;
use crate::limits::MAX_LINES;
use lt_text::{next_line, next_word};
use std::alloc::{AllocError, Global};
use std::error::Error;
use std::fmt;

/// Why lines are not read.
#[derive(Clone, Copy, Debug, PartialEq, Eq)]
pub enum ReadError {
    Memory,
    /// The first line that is refused; lines count from 1.
    Refused { line: u32 },
}

impl fmt::Display for ReadError {
    ghost use Rattle.std.specs.Prelude.{Some};
    ghost use Rattle.lt_nest_lines.specs.Written.{read_error_text};

    ghost output = { λ error. Some (read_error_text error) };

    fn fmt<W: fmt::Write>(&self, f: &mut fmt::Formatter<W>) -> fmt::Result {
        match self {
            ReadError::Memory => f.write_str("no memory"),
            ReadError::Refused { line } => write!(f, "line {line}"),
        }
    }
}

impl Error for ReadError {}

/// Reads lines.
///
/// Spaces and tabs part the words of a line. Lines without words are skipped, and so are comments, whose first
/// word begins with `#`. The first line that is refused decides.
pub fn read(alloc: Global, bytes: &[u8]) -> Result<Input, ReadError>
    requires { length bytes.now < 2 ^ 32 - 1 }
    ensures read { ReadsInput result (input_of bytes.now) }
    ensures memory { IfErr result (λ error. error ≡ errors.Memory → BeginsWell (lines bytes.now)) }
{
    let mut input = Input::new(alloc);
    let mut rest = bytes;
    let mut number: u32 = 1;
    while let Some((line, after)) = next_line(rest) {
        let Ok(taken) = read_line(alloc, &mut input, line) else {
            return Err(ReadError::Memory);
        };
        if !taken {
            return Err(ReadError::Refused { line: number });
        }
        rest = after;
        number += 1;
    }
    Ok(input)
}

// Adds what the line says, and tells whether it may be said. Memory is wanted only of a line that may.
#[tactic(auto, unfolding(crate::specs::Input::input_after_line))]
fn read_line(alloc: Global, input: &mut Input, line: &[u8]) -> Result<bool, AllocError>
    ensures taken { IfOk result (λ taken. AddsLine taken input.new (input_after_line input.old line.now)) }
    ensures memory { IsErr result → IsAdded (input_after_line input.old line.now) }
{
    if is_skipped(line) {
        return Ok(true);
    }
    let Some(form) = form_of(line) else {
        return Ok(false);
    };
    if input.lines() as usize >= MAX_LINES {
        return Ok(false);
    }
    add(input, alloc, form)
}

fn is_skipped(line: &[u8]) -> bool
    ensures { result ≡ says_nothing (words line.now) }
{
    match next_word(line) {
        Some((word, _)) => !word.is_empty() && word[0] == b'#',
        None => true,
    }
}
