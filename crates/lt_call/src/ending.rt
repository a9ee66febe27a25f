ghost use Rattle.std.specs.Prelude.{◌≡◌};
ghost use Rattle.std.specs.Process.{exit_status};
ghost use Rattle.lt_call.specs.Outcomes.{exit_code};

use crate::status::Status;
use std::env::{self, Env, FillError};
use std::fmt::Display;
use std::io::{self, Eprint};
use std::process::ExitCode;

/// The words after the program's name. One that isn't text is an error; the name may be any bytes.
pub fn words<R: Env + AllocGlobal>(rt: &R) -> io::Result<Vec<String>> {
    let arguments = env::args(&(AfterName { rt }, rt.alloc()))?;
    Ok(arguments.collect(rt.alloc())?)
}

// The arguments but the first, which is the program's name.
#[derive(Drop)]
struct AfterName<'a, R> {
    rt: &'a R,
}

impl<R: Env> Env for AfterName<'_, R> {
    fn arg(&self, i: usize, buf: &mut [u8]) -> Result<usize, FillError> {
        self.rt.arg(i.saturating_add(1), buf)
    }

    fn var(&self, name: &str, buf: &mut [u8]) -> Result<usize, FillError> {
        self.rt.var(name, buf)
    }

    fn var_at(&self, i: usize, buf: &mut [u8]) -> Result<usize, FillError> {
        self.rt.var_at(i, buf)
    }
}

/// Writes the line of the status on standard error, if it has one, and returns the code to exit with.
pub fn end_with<R: Eprint, A: Status + Display>(rt: &R, status: &A) -> ExitCode
    ensures { exit_status result ≡ exit_code (A.outcome status.now) }
{
    let outcome = status.outcome();
    let line = if outcome.has_line() {
        Some(status)
    } else {
        None
    };
    end_by(rt, outcome.code(), line)
}

/// Writes the line on standard error, if there is one, and returns the code to exit with. A line that can't be written
/// changes no code.
pub fn end_by<R: Eprint, L: Display>(rt: &R, code: u8, line: Option<&L>) -> ExitCode
    ensures { exit_status result ≡ code }
{
    if let Some(line) = line {
        let _ = eprintln!(rt; "{line}");
    }
    ExitCode::from(code)
}
