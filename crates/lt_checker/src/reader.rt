mod first;

ghost use Rattle.std.specs.Prelude.{◌≡◌, ◌≢◌, None, IfOk, OnOk, IsTrue, IsFalse, IsErr};
ghost use Rattle.lt_spec.specs.Script.{IsScript, IsShort};
ghost use Rattle.lt_law_journals.specs.Checking.{first_reader, read_on, verdict};
ghost use Rattle.lt_checker.specs.Checker.{IsAnswer, IsMemory, IsWorldAnswer};

use crate::due::{Due, push_closing, push_first};
use crate::error::ReplayError;
use crate::following::follow;
use lt_journal::{Text, Wording};
use lt_merge::Run;
use lt_script::Script;
use lt_spec::MAX_MOVES;
use lt_world::World;
use std::alloc::{AllocError, Global};
use std::collections::VecDeque;
use std::marker::Model;

/// What the lines so far have told: the moves, the lines that must come before any further move, and how many lines
/// were good.
pub(crate) struct Reader {
    alloc: Global,
    // The script, with its names as a journal has them.
    wording: Wording,
    world: World,
    due: Due,
    good: u32,
    // A line was bad: the one after the good ones.
    bad: bool,
}

impl Model for Reader {
    ghost use Rattle.std.specs.Prelude.{◌<◌, ◌+◌, ◌^◌};
    ghost use Rattle.lt_spec.specs.Script.{IsScript, IsShort};
    ghost use Rattle.lt_checker.specs.Checker.{ReaderData, KeepsPlace, place_now};
    ghost use Rattle.lt_checker.specs.Due.{due_lines};

    ghost Value = { ReaderData };

    ghost view = { λ r. record {
      script = r.wording;
      reader = record {
        place = place_now r.bad r.world.run (due_lines r.wording r.world.run r.due.told r.due.later.items);
        good = r.good;
      };
    } };

    ghost invariant = { λ r. IsScript r.wording × IsShort r.wording × (r.good + 1 < 2 ^ 32)
        × KeepsPlace r.bad r.wording r.world (due_lines r.wording r.world.run r.due.told r.due.later.items) };
}

// Written out, so that all places which let a reader go call this.
impl Drop for Reader {
    fn drop(self) {
        let Reader {
            alloc: _,
            wording,
            world,
            due,
            good: _,
            bad: _,
        } = self;
        drop(wording);
        drop(world);
        drop(due);
    }
}

impl Reader {
    /// Before the first line.
    pub(crate) fn new(alloc: Global, script: &Script) -> Result<Reader, AllocError>
        requires { IsShort script.now }
        ensures { IfOk result (λ reader. reader ≡ record { script = script.now; reader = first_reader script.now }) }
    {
        let wording = Wording::new(alloc, script)?;
        let world = World::new(alloc, script, MAX_MOVES)?;
        let later = VecDeque::new(alloc);
        let words = Text::new(alloc);
        let mut reader = Reader {
            alloc,
            wording,
            world,
            due: Due {
                told: 0,
                later,
                words,
            },
            good: 0,
            // It has no place until the first lines are due.
            bad: true,
        };
        push_first(&mut reader.due.later, script)?;
        push_closing(alloc, &mut reader.due.later, script, &reader.world)?;
        reader.bad = false;
        Ok(reader)
    }

    /// Whether a line was bad.
    pub(crate) fn is_bad(&self) -> bool
        ensures bad { IsTrue result → self.now.reader.place ≡ None }
        ensures good { IsFalse result → self.now.reader.place ≢ None }
    {
        self.bad
    }

    /// Takes one line. It also fails where the count of lines would pass the largest number.
    pub(crate) fn take(&mut self, line: &[u8]) -> Result<(), AllocError>
        ensures script { self.new.script ≡ self.old.script }
        ensures reader { OnOk result (self.new.reader ≡ read_on self.old.script self.old.reader line.now) }
        ensures cause { IsErr result → self.old.reader.place ≢ None }
    {
        if self.bad {
            return Ok(());
        }
        // Where memory is refused, nothing is known of what is kept.
        self.bad = true;
        let is_good = follow(
            self.alloc,
            &self.wording,
            &mut self.world,
            &mut self.due,
            line,
        )?;
        if self.good == u32::MAX - 1 {
            return Err(AllocError);
        }
        if is_good {
            self.good += 1;
            self.bad = false;
        }
        Ok(())
    }

    /// The run, where all its lines are there.
    pub(crate) fn finish(self) -> Result<Run, ReplayError>
        ensures answers { IsAnswer (verdict self.script self.reader) result }
        ensures is_script { IsScript self.script }
        ensures is_short { IsShort self.script }
    {
        Ok(self.finish_world()?.into_run())
    }

    /// The world in which the run ended, where all its lines are there.
    pub(crate) fn finish_world(self) -> Result<World, ReplayError>
        ensures answers { IsWorldAnswer self.script (verdict self.script self.reader) result }
        ensures told { ¬ IsMemory result }
        ensures is_script { IsScript self.script }
        ensures is_short { IsShort self.script }
    {
        if self.bad || !self.due.is_none(self.world.run()) || !self.world.at_rest() {
            return Err(ReplayError::Bad {
                line: self.good + 1,
            });
        }
        let Reader {
            alloc: _,
            wording,
            world,
            due,
            good: _,
            bad: _,
        } = self;
        drop(wording);
        drop(due);
        Ok(world)
    }
}
