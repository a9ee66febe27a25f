ghost use Rattle.std.specs.Prelude.{◌≡◌, ◌<◌, ◌-◌, ◌^◌, Some, length, slice_get, IfOk};
ghost use Rattle.lt_text.specs.Text.{lines};
ghost use Rattle.lt_journal.specs.Grammar.{read_line, journal_of};

use crate::grammar::read_line;
use crate::line::{Line, push_line};
use lt_script::Script;
use lt_text::next_line;
use std::alloc::{AllocError, Global};
use std::marker::Model;

/// What the lines of a journal say, in order.
#[derive(Debug, Drop)]
pub struct Journal {
    lines: Vec<Line>,
}

impl Model for Journal {
    ghost use Rattle.std.specs.Prelude.{List, vec_len, ◌<◌, ◌^◌};
    ghost use Rattle.lt_journal.specs.declared.line.Line.{Line as AnyLine};

    ghost Value = { List AnyLine };

    ghost view = { λ j. j.lines.items };

    ghost invariant = { λ j. vec_len j.lines < 2 ^ 32 };
}

impl Journal {
    /// The number of lines.
    pub fn len(&self) -> u32
        ensures { result ≡ length self.now }
    {
        self.lines.len() as u32
    }

    /// The line at place `k`.
    pub fn line(&self, k: u32) -> Line
        requires { k < length self.now }
        ensures { slice_get self.now k ≡ Some result }
    {
        self.lines[k as usize]
    }
}

/// Reads a journal. No line is skipped, and one that has none of the forms is `Line::Bad`.
pub fn read(alloc: Global, script: &Script, bytes: &[u8]) -> Result<Journal, AllocError>
    requires { length bytes.now < 2 ^ 32 - 1 }
    ensures { IfOk result (λ journal. journal ≡ journal_of script.now bytes.now) }
{
    let mut lines = Vec::new(alloc);
    let mut rest = bytes;
    while let Some((line, after)) = next_line(rest) {
        push_line(&mut lines, read_line(script, line))?;
        rest = after;
    }
    Ok(Journal { lines })
}
