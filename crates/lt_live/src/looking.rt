// A session and its seat, at their station.
ghost use Rattle.lt_live.specs.Stations.{IsStation, IsSeated, SeatLooks};

use crate::both_ends::beside;
use crate::ends::{Seat, Session};
use lt_runner::Runner;

/// The session and its seat look at their rings from both ends.
pub(crate) fn beside_at(seats: &mut Vec<Seat>, session: &mut Session, runner: &Runner)
    requires kept { IsStation runner.now seats.old.items }
    requires seated { IsSeated session.old seats.old.items }
    ensures kept { IsStation runner.now seats.new.items }
    ensures looks { SeatLooks runner.now.log.entries session.old session.new seats.old.items seats.new.items }
{
    let place = session.place;
    runner.kept();
    beside(session, &mut seats[place], runner.log());
}
