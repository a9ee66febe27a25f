// What a node adds to the journal of its service.
ghost use Rattle.std.specs.Prelude.{◌≡◌, Ok, None, IfOk, IfSome};
ghost use Rattle.lt_runner.specs.Kept.{HasAll};
ghost use Rattle.lt_apart.specs.Remote.{IsJournalOfNode};

use crate::remote::Remote;
use lt_script::{Script, print};
use std::alloc::{AllocError, Global};

/// What a node adds to the journal of its service.
#[derive(Drop)]
pub struct NodeJournal {
    /// The text of the script with the commands of the node's clients.
    pub script: Vec<u8>,
    /// The text of the node's moves: a line for each, with its stamp, and the lines of its events, and at the end the
    /// line `cut` with the node.
    pub moves: Vec<u8>,
}

impl Remote {
    /// What the node made, in words; None where it has forgotten some of it. The sessions have no other ends any more.
    ///
    /// Without memory all is dropped.
    pub fn into_journal(self, alloc: Global) -> Result<Option<NodeJournal>, AllocError>
        ensures written { IfOk result (λ made. IfSome made (λ journal. IsJournalOfNode self journal)) }
        ensures forgotten { result ≡ Ok None → ¬ HasAll self.station.runner }
    {
        if !self.station.has_all() {
            return Ok(None);
        }
        let script = self.station.script().copy(alloc)?;
        self.write_moves(alloc, &script)
    }

    // The texts, by a script that is the node's own.
    fn write_moves(self, alloc: Global, script: &Script) -> Result<Option<NodeJournal>, AllocError>
        requires script { script.now ≡ self.station.runner.node.script }
        requires whole { self.station.runner.log.gone ≡ 0 }
        ensures written { IfOk result (λ made. IfSome made (λ journal. IsJournalOfNode self journal)) }
        ensures some { ¬ (result ≡ Ok None) }
    {
        let node = self.node();
        match self.into_runner().into_log() {
            None => unreachable!(),
            Some(log) => Ok(Some(NodeJournal {
                script: print(alloc, script)?,
                moves: lt_journal::write(alloc, script, &log, Some(node))?,
            })),
        }
    }
}
