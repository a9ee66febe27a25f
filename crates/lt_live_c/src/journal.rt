// What a service ends in: the texts of its script and of its run.
ghost use Rattle.std.specs.Prelude.{◌≡◌, IfOk, count_by};
ghost use Rattle.lt_live_c.specs.Journals.{says_held, says_waiting, TellsOf};

use lt_journal::{Line, closing_lines};
use lt_merge::Run;
use lt_script::Script;
use std::alloc::{AllocError, Global};

/// The text of a script with the commands that were appended, the text of its run, and how many lines of it say what is
/// held and who waits at the end.
pub struct Journal {
    pub script: Vec<u8>,
    pub text: Vec<u8>,
    pub held: usize,
    pub waiting: usize,
}

// Written out, so that all places which let a journal go call this.
impl Drop for Journal {
    fn drop(self) {
        let Journal {
            script,
            text,
            held: _,
            waiting: _,
        } = self;
        drop(script);
        drop(text);
    }
}

impl Journal {
    /// A journal without text.
    pub fn empty(alloc: Global) -> Journal {
        Journal {
            script: Vec::new(alloc),
            text: Vec::new(alloc),
            held: 0,
            waiting: 0,
        }
    }

    pub fn of(alloc: Global, script: &Script, run: &Run) -> Result<Journal, AllocError>
        ensures { IfOk result (λ journal. TellsOf script.now run.now.entries journal) }
    {
        let text = lt_journal::write(alloc, script, run, None)?;
        let written = lt_script::print(alloc, script)?;
        let lines = closing_lines(alloc, script, run)?;
        Ok(Journal {
            script: written,
            text,
            held: held_lines(&lines),
            waiting: waiting_lines(&lines),
        })
    }
}

fn held_lines(lines: &[Line]) -> usize
    ensures { result ≡ count_by says_held lines.now }
{
    lines.iter().filter(|line| is_held(line)).count()
}

fn waiting_lines(lines: &[Line]) -> usize
    ensures { result ≡ count_by says_waiting lines.now }
{
    lines.iter().filter(|line| is_waiting(line)).count()
}

fn is_held(line: &Line) -> bool
    ensures { result ≡ says_held line.now }
{
    matches!(line, Line::Held { .. })
}

fn is_waiting(line: &Line) -> bool
    ensures { result ≡ says_waiting line.now }
{
    matches!(line, Line::Waiting { .. })
}
