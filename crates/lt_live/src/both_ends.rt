// Both ends of a session in one thread.
ghost use Rattle.std.specs.Prelude.{◌≡◌, ◌≤◌, ◌<◌, ◌⊎◌, List, length};
ghost use Rattle.lt_modes.specs.declared.command.Command.{Command};
ghost use Rattle.lt_spec.specs.Holdings.{lines_of};
ghost use Rattle.rtrb.specs.Ring.{producer_capacity};
ghost use Rattle.lt_live.specs.Words.{known_replies, AreTwoEnds};
ghost use Rattle.lt_live.specs.Seats.{IsCursorOf, KnowAll, LooksBeside, HasToldAll, IsFullOfReplies, IsSeat, IsSettledSeat};

use crate::ends::{Seat, Session};
use lt_log::LongLog;

/// Looks at both rings from both ends: replies that wait go into their ring as far as it takes them, and then each side
/// knows all that is in its ring.
pub(crate) fn beside(session: &mut Session, seat: &mut Seat, log: &LongLog)
    requires link { AreTwoEnds session.old seat.old }
    requires cursor { IsCursorOf log.now seat.old }
    requires places { 0 < producer_capacity seat.old.replies }
    ensures link { AreTwoEnds session.new seat.new }
    ensures beside { KnowAll session.new seat.new }
    ensures looks { LooksBeside log.now.entries session.old session.new seat.old seat.new }
    ensures stops { HasToldAll log.now.entries seat.new ⊎ IsFullOfReplies session.new seat.new }
    ensures moves { HasToldAll log.now.entries seat.new ⊎ (0 < length (known_replies session.new)) }
{
    seat.commands.slots_beside(&mut session.commands);
    seat.replies.slots_beside(&mut session.replies);
    seat.tell(log);
    session.replies.slots_beside(&mut seat.replies);
}

/// What a caller can be sure of at the end, for each list of commands that the node made the client's.
pub(crate) fn settle(session: &mut Session, seat: &mut Seat, log: &LongLog)
    requires link { AreTwoEnds session.old seat.old }
    requires cursor { IsCursorOf log.now seat.old }
    requires places { 0 < producer_capacity seat.old.replies }
    ensures { (list : List Command) → IsSeat list log.now.entries seat.old.client seat.old → IsSettledSeat list (lines_of log.now.entries) seat.old.client session.old session.new seat.new }
{
    beside(session, seat, log);
}
