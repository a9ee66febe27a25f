// What all were served so far.
ghost use Rattle.lt_live.specs.Live.{LiveScript, EachStation, EachSession, SaysSame};
ghost use Rattle.lt_live.specs.Served.{AreServed, AreWhole, StayLive, MakesNoMove};

use crate::ends::Session;
use crate::finishing::settle_all;
use crate::meeting::{meet_all, runners_kept};
use crate::station::Station;

/// There is a run in which these sessions were served so far, and the service goes on.
///
/// All sessions and stations look at the rings between them. It makes no move and wants no memory; nobody puts the run
/// together.
pub fn served(stations: &mut Vec<Station>, sessions: &mut Vec<Session>)
    requires { LiveScript stations.old.items sessions.old.items }
    ensures served { AreServed stations.old.items sessions.old.items sessions.new.items }
    ensures whole { AreWhole stations.old.items sessions.old.items stations.new.items sessions.new.items }
    ensures live { StayLive stations.old.items sessions.old.items stations.new.items sessions.new.items }
    ensures stations { EachStation MakesNoMove stations.old.items stations.new.items }
    ensures sessions { EachSession SaysSame sessions.old.items sessions.new.items }
{
    settle_all(stations, sessions);
    meet_all(stations);
    runners_kept(stations);
}
