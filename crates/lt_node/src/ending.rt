// The end of a move in one set.
ghost use Rattle.std.specs.Prelude.{◌≡◌, ◌+◌, ℕ};
ghost use Rattle.lt_core.specs.Bound.{RoomToSend};
ghost use Rattle.lt_core.specs.CoreData.{Does, HasRoom};
ghost use Rattle.lt_node.specs.NodeData.{ending, most_sent};

use lt_core::{Core, SetCommand};
use lt_desk::Out;
use lt_modes::Stamp;

/// Ends the move in the set; where a client is given, its locks there go first.
pub(crate) fn end(core: &mut Core, dropped: Option<u16>, stamp: Stamp, out: &mut Out)
    requires node { stamp.node ≡ core.old.node }
    requires room { HasRoom 2 stamp.clock core.old }
    requires send { RoomToSend (most_sent core.old) out.old }
    ensures does { Does (ending dropped stamp core.old.set core.old.state) core.old out.old core.new out.new }
    ensures send { (more : ℕ) → RoomToSend (most_sent core.old + more) out.old → RoomToSend more out.new }
{
    match dropped {
        None => core.finish(stamp, out),
        Some(client) => {
            core.act(client, SetCommand::DropAll, stamp, out);
        }
    }
}
