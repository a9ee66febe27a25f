// Commands that come while the runner is at work, and what it shows of these and of its moves.
ghost use Rattle.std.specs.Prelude.{◌≡◌, ◌<◌, length, OnOk, OnErr};
ghost use Rattle.lt_spec.specs.Script.{IsScript, HasTargets, IsOfVersion};
ghost use Rattle.lt_spec.specs.declared.limits.TheConstants.{MAX_COMMANDS_OF_SERVICE};
ghost use Rattle.lt_spec.specs.NodeMove.{home};
ghost use Rattle.lt_node.specs.NodeData.{kept_script};
ghost use Rattle.lt_runner.specs.Kept.{with_appended};

use crate::runner::Runner;
use lt_log::LongLog;
use lt_modes::Command;
use lt_node::Node;
use lt_script::Script;
use std::alloc::{AllocError, Global};

impl Runner {
    /// The command becomes the last one of the client's list, in this runner's copy of the script.
    pub fn append(&mut self, client: u16, command: Command) -> Result<(), AllocError>
        requires client { client < length self.old.node.script.clients }
        requires home { home self.old.node.script client ≡ self.old.node.me }
        requires targets { HasTargets self.old.node.script.sets self.old.node.script.clients client command }
        requires modes { IsOfVersion self.old.node.script.version command }
        requires room { length self.old.node.script.commands < MAX_COMMANDS_OF_SERVICE }
        ensures appended { OnOk result (self.new ≡ with_appended self.old client command) }
        ensures same { OnErr result (self.new ≡ self.old) }
    {
        let parts = self.parts.as_mut();
        parts.node.append(client, command)?;
        parts.idle = false;
        Ok(())
    }

    /// Its node.
    pub fn node(&self) -> &Node
        ensures { result.now ≡ self.now.node }
    {
        &self.parts.node
    }

    /// The script, with the commands that were appended here, without those that were forgotten.
    pub fn script(&self) -> &Script
        ensures kept { result.now ≡ kept_script self.now.node }
        ensures whole { self.now.node.gone ≡ 0 → result.now ≡ self.now.node.script }
    {
        self.parts.node.script()
    }

    /// How many commands the script has, forgotten or not.
    pub fn commands(&self) -> u64
        ensures commands { result ≡ length self.now.node.script.commands }
        ensures script { IsScript self.now.node.script }
    {
        self.parts.node.me();
        self.parts.node.commands()
    }

    /// The moves that were made, in order.
    pub fn log(&self) -> &LongLog
        ensures { result.now ≡ self.now.log }
    {
        &self.parts.log
    }
}
