// Commands that come while the node is at work.
ghost use Rattle.std.specs.Prelude.{◌≡◌, ◌<◌, length, OnOk, OnErr};
ghost use Rattle.lt_spec.specs.Script.{HasTargets, IsOfVersion};
ghost use Rattle.lt_spec.specs.declared.limits.TheConstants.{MAX_COMMANDS_OF_SERVICE};
ghost use Rattle.lt_spec.specs.NodeMove.{home};
ghost use Rattle.lt_node.specs.Clients.{with_request, with_command};

use crate::client::Client;
use crate::long_script::LongScript;
use crate::node::Node;
use lt_modes::Command;
use std::alloc::AllocError;

impl Node {
    /// The command becomes the last one of the client's list, in this node's copy of the script.
    pub fn append(&mut self, client: u16, command: Command) -> Result<(), AllocError>
        requires client { client < length self.old.script.clients }
        requires home { home self.old.script client ≡ self.old.me }
        requires targets { HasTargets self.old.script.sets self.old.script.clients client command }
        requires modes { IsOfVersion self.old.script.version command }
        requires room { length self.old.script.commands < MAX_COMMANDS_OF_SERVICE }
        ensures appended { OnOk result
            (self.new ≡ record self.old { script = with_request self.old.script client command }) }
        ensures same { OnErr result (self.new ≡ self.old) }
    {
        append_to(
            &mut self.clients[usize::from(client)],
            &mut self.script,
            client,
            command,
        )?;
        Ok(())
    }
}

// The command becomes the last one of the client, in its own list and in the script.
fn append_to(
    list: &mut Client,
    script: &mut LongScript,
    client: u16,
    command: Command,
) -> Result<(), AllocError>
    requires client { client < length script.old.whole.clients }
    requires targets { HasTargets script.old.whole.sets script.old.whole.clients client command }
    requires modes { IsOfVersion script.old.whole.version command }
    requires room { length script.old.whole.commands < MAX_COMMANDS_OF_SERVICE }
    ensures list { OnOk result (list.new ≡ with_command list.old command) }
    ensures script { OnOk result
        (script.new ≡ record script.old { whole = with_request script.old.whole client command }) }
    ensures same { OnErr result ((list.new ≡ list.old) × (script.new ≡ script.old)) }
{
    list.kept.commands.reserve(1)?;
    script.add_command(client, command)?;
    list.kept.commands.push_reserved(command);
    Ok(())
}
