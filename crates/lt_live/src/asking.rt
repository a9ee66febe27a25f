// Which commands a client may submit.
ghost use Rattle.std.specs.Prelude.{◌≡◌, ◌<◌, length};
ghost use Rattle.lt_modes.specs.FiveModes.{is_of_version};
ghost use Rattle.lt_live.specs.Submitting.{may_ask, has_set, is_neighbour};

use lt_modes::{Command, Mode};
use lt_script::Script;

fn has_set(script: &Script, set: u32) -> bool
    ensures { result ≡ has_set script.now set }
{
    set < script.sets()
}

fn is_of_version(script: &Script, mode: Mode) -> bool
    ensures { result ≡ is_of_version script.now.version mode }
{
    script.version() != 1 || mode.is_of_five()
}

// Whether the other client is of the script, and of the client's node.
fn is_neighbour(script: &Script, client: u16, other: u16) -> bool
    requires { client < length script.now.clients }
    ensures { result ≡ is_neighbour script.now client other }
{
    other < script.clients() && script.home(other) == script.home(client)
}

/// Whether the command names only what is of the script, and whose locks the client may drop or whose ask it may give up.
pub(crate) fn may_ask(script: &Script, client: u16, command: Command) -> bool
    requires { client < length script.now.clients }
    ensures { result ≡ may_ask script.now client command }
{
    match command {
        Command::Lock { set, mode } => has_set(script, set) && is_of_version(script, mode),
        Command::Try { set, mode } => has_set(script, set) && is_of_version(script, mode),
        Command::Unlock { set, mode } => has_set(script, set) && is_of_version(script, mode),
        Command::Change {
            set,
            gives_up,
            mode,
        } => {
            has_set(script, set) && (is_of_version(script, gives_up) && is_of_version(script, mode))
        }
        Command::DropAll { client: other, set } => {
            has_set(script, set) && is_neighbour(script, client, other)
        }
        Command::Withdraw { client: other, set } => {
            has_set(script, set) && (is_neighbour(script, client, other) && script.version() == 3)
        }
    }
}
