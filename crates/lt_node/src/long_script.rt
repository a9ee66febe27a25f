ghost use Rattle.std.specs.Prelude.{◌≡◌, ◌<◌, length, OnOk, OnErr};
ghost use Rattle.lt_spec.specs.Script.{IsScript, IsRequest, IsOfVersion};
ghost use Rattle.lt_spec.specs.declared.limits.TheConstants.{MAX_COMMANDS_OF_SERVICE};
ghost use Rattle.lt_node.specs.Clients.{with_request};
ghost use Rattle.lt_node.specs.Forgetting.{without_first};

use lt_log::History;
use lt_modes::Command;
use lt_script::Script;
use std::alloc::{AllocError, Global};
use std::marker::Model;

/// A script of which the commands so far can be forgotten: then only proofs know them.
#[derive(Drop)]
pub(crate) struct LongScript {
    // What was kept each time when its commands were forgotten.
    past: History<Script>,
    // How many commands were forgotten.
    gone: u64,
    kept: Script,
}

impl Model for LongScript {
    ghost use Rattle.lt_node.specs.Forgetting.{LongScriptData, IsLongScript, with_past};

    ghost Value = { LongScriptData };

    ghost view = { λ s. record { whole = with_past s.past.items s.kept; gone = s.gone } };

    ghost invariant = { λ s. IsLongScript s.past.items s.kept s.gone };
}

impl LongScript {
    /// All commands are kept.
    pub(crate) fn of(script: Script) -> LongScript
        requires { IsScript script }
        ensures { result ≡ record { whole = script; gone = 0 } }
    {
        LongScript {
            past: History::new(),
            gone: 0,
            kept: script,
        }
    }

    /// The script without the commands that were forgotten.
    pub(crate) fn kept(&self) -> &Script
        ensures { result.now ≡ without_first self.now.gone self.now.whole }
    {
        &self.kept
    }

    /// How many commands there are, forgotten or not.
    pub(crate) fn commands(&self) -> u64
        ensures { result ≡ length self.now.whole.commands }
    {
        self.gone + self.kept.commands()
    }

    /// How many commands were forgotten.
    pub(crate) fn forgotten(&self) -> u64
        ensures { result ≡ self.now.gone }
    {
        self.gone
    }

    /// Adds a command behind the others.
    pub(crate) fn add_command(&mut self, client: u16, command: Command) -> Result<(), AllocError>
        requires room { length self.old.whole.commands < MAX_COMMANDS_OF_SERVICE }
        requires request { IsRequest self.old.whole.sets self.old.whole.clients (client, command) }
        requires modes { IsOfVersion self.old.whole.version command }
        ensures added { OnOk result
            (self.new ≡ record self.old { whole = with_request self.old.whole client command }) }
        ensures same { OnErr result (self.new ≡ self.old) }
    {
        self.kept.add_command(client, command)
    }

    /// Forgets all commands so far.
    pub(crate) fn forget(&mut self, alloc: Global) -> Result<(), AllocError>
        ensures forgotten { OnOk result (self.new ≡ record self.old { gone = length self.old.whole.commands }) }
        ensures same { OnErr result (self.new ≡ self.old) }
    {
        let bare = self.kept.without_commands(alloc)?;
        self.gone = self.commands();
        self.past = self.past.and(&self.kept);
        self.kept = bare;
        Ok(())
    }
}
