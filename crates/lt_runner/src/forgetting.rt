// Moves and commands that the runner forgets.
ghost use Rattle.std.specs.Prelude.{◌≡◌, ◌≤◌, ◌↔◌, IsTrue, length, OnOk, OnErr};
ghost use Rattle.lt_runner.specs.Kept.{HasAll};

use crate::runner::Runner;
use std::alloc::{AllocError, Global};

impl Runner {
    /// Forgets the moves that were made. Their memory is kept for further ones.
    pub fn forget_moves(&mut self)
        ensures rest { self.new ≡ record self.old { log = self.new.log } }
        ensures entries { self.new.log.entries ≡ self.old.log.entries }
        ensures gone { self.new.log.gone ≡ length self.old.log.entries }
        ensures spare { self.old.log.spare ≤ self.new.log.spare }
        ensures room { self.old.log.room ≤ self.new.log.room }
    {
        self.parts.as_mut().log.forget();
    }

    /// Forgets all commands of the script so far, apart from those that its clients are still to make.
    pub fn forget_commands(&mut self, alloc: Global) -> Result<(), AllocError>
        ensures rest { self.new ≡ record self.old { node = record self.old.node { gone = self.new.node.gone } } }
        ensures gone { OnOk result (self.new.node.gone ≡ length self.old.node.script.commands) }
        ensures same { OnErr result (self.new ≡ self.old) }
    {
        self.parts.as_mut().node.forget_commands(alloc)?;
        Ok(())
    }

    /// Whether it has forgotten no moves and no commands.
    pub fn has_all(&self) -> bool
        ensures { IsTrue result ↔ HasAll self.now }
    {
        self.parts.log.forgotten() == 0 && self.parts.node.forgotten() == 0
    }
}
