ghost use Rattle.std.specs.Prelude.{◌≡◌, IfOk};
ghost use Rattle.lt_tally.specs.Summary.{summary_of};

use crate::locks::locks_held;
use crate::tally::tally_of;
use crate::waiting::clients_waiting;
use lt_merge::Run;
use lt_script::Script;
use std::alloc::{AllocError, Global};
use std::fmt;

/// What a run came to, and the sizes of its script.
#[derive(Clone, Copy, Debug, PartialEq, Eq)]
pub struct Summary {
    pub nodes: u8,
    pub sets: u32,
    pub clients: u16,
    pub commands: u64,
    /// How many locks are held at the end, those of all clients together.
    pub held: usize,
    /// How many clients wait at the end.
    pub waiting: u16,
}

impl Summary {
    /// Reads the run once for the locks, and once for the clients.
    pub fn new(alloc: Global, script: &Script, run: &Run) -> Result<Summary, AllocError>
        ensures { IfOk result (λ summary. summary ≡ summary_of script.now run.now.entries) }
    {
        let held = locks_held(alloc, script, run)?;
        let tally = tally_of(alloc, script, run)?;
        Ok(Summary {
            nodes: script.nodes(),
            sets: script.sets(),
            clients: script.clients(),
            commands: script.commands(),
            held: held.len(),
            waiting: clients_waiting(script, &tally),
        })
    }
}

/// Six lines: a name and a number each.
impl fmt::Display for Summary {
    ghost use Rattle.std.specs.Prelude.{Some};
    ghost use Rattle.lt_tally.specs.Summary.{summary_text};

    ghost output = { λ summary. Some (summary_text summary) };

    fn fmt<W: fmt::Write>(&self, f: &mut fmt::Formatter<W>) -> fmt::Result {
        writeln!(
            f,
            "nodes {}\nsets {}\nclients {}\ncommands {}\nheld {}\nwaiting {}",
            self.nodes, self.sets, self.clients, self.commands, self.held, self.waiting,
        )
    }
}
