// What callers are given back.
ghost use Rattle.std.specs.Prelude.{◌≡◌, ◌↔◌, IsTrue, IfOk};
ghost use Rattle.lt_live_callers.specs.Over.{AreDone};
ghost use Rattle.lt_live_callers.specs.Served.{with_journal};

use crate::ending::LiveEnding;
use lt_journal::write;
use lt_merge::Run;
use lt_modes::Command;
use lt_script::{Script, print};
use std::alloc::{AllocError, Global};

/// A caller as it is at the end, and the command of its own that it might not submit, if there was one.
#[derive(Drop)]
pub struct Called<C> {
    pub caller: C,
    /// What it answered at the end, asked whether it is done.
    pub done: bool,
    pub refused: Option<Command>,
}

/// The script with the commands that were appended, the run of it, how that ended, and the callers, after so many
/// rounds.
#[derive(Drop)]
pub struct Served<C> {
    pub script: Script,
    pub run: Run,
    pub ending: LiveEnding,
    pub rounds: u32,
    pub callers: Vec<Called<C>>,
}

impl<C> Served<C> {
    /// Whether each caller said at the end that it is done.
    pub fn all_done(&self) -> bool
        ensures { IsTrue result ↔ AreDone self.now.callers.items }
    {
        self.callers.iter().all(|called| called.done)
    }

    /// The script, the line `journal` and the journal of the run, as `lockrun check` reads them where the script has no
    /// more sets than a text may have.
    pub fn text(&self, alloc: Global) -> Result<Vec<u8>, AllocError>
        ensures { IfOk result (λ text. text.items ≡ with_journal self.now.script self.now.run.entries) }
    {
        let mut text = print(alloc, &self.script)?;
        text.extend_from_slice(b"journal\n")?;
        text.extend_from_slice(&write(alloc, &self.script, &self.run, None)?)?;
        Ok(text)
    }
}
