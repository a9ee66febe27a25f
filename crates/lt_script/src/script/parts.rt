// What the copies of a script share.
ghost use Rattle.std.specs.Prelude.{◌≡◌, [], IfOk};
ghost use Rattle.lt_script.specs.Views.{DeclareTheSame};

use crate::declarations::ClientDecl;
use crate::index::Index;
use crate::sets::DeclaredSets;
use lt_modes::Command;
use lt_spec::MAX_COMMANDS;
use std::alloc::{AllocError, Global};

/// What a script and its copies declare: the sets and the clients.
#[derive(Drop)]
pub(crate) struct Parts {
    pub(crate) sets: DeclaredSets,
    pub(crate) clients: Index<ClientDecl>,
}

impl Parts {
    pub(crate) fn new(alloc: Global) -> Result<Parts, AllocError>
        ensures sets { IfOk result (λ parts. parts.sets ≡ []) }
        ensures clients { IfOk result (λ parts. parts.clients ≡ []) }
    {
        Ok(Parts {
            sets: DeclaredSets::new(alloc)?,
            clients: Index::new(alloc)?,
        })
    }

    pub(crate) fn copy(&self, alloc: Global) -> Result<Parts, AllocError>
        ensures { IfOk result (DeclareTheSame self.now) }
    {
        Ok(Parts {
            sets: self.sets.copy(alloc)?,
            clients: self.clients.copy(alloc)?,
        })
    }
}

/// No commands, and room for all that a text may have, where there is memory for them.
pub(crate) fn room_for_commands(alloc: Global) -> Vec<(u16, Command)>
    ensures { result.items ≡ [] }
{
    match Vec::with_capacity(alloc, MAX_COMMANDS as usize) {
        Ok(commands) => commands,
        Err(_) => Vec::new(alloc),
    }
}
