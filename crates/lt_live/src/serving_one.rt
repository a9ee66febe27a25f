// A station, and the sessions that have their other ends there.
ghost use Rattle.std.specs.Prelude.{◌≡◌, ◌<◌, length};
ghost use Rattle.lt_live.specs.Stations.{StaySeated};
ghost use Rattle.lt_live.specs.Live.{EachSession, SaysSame};
ghost use Rattle.lt_live.specs.OneNode.{AreSeated, AreServedBy, SettlesHere};

use crate::ends::Session;
use crate::station::Station;

/// Each of these sessions was served by this station so far.
///
/// Each looks at its rings from both ends, so that what its station has taken and told is what it submitted and
/// polls. It makes no move and wants no memory.
#[tactic(auto, using(crate::proofs::OpensHere::none_settled))]
pub fn settle(station: &mut Station, sessions: &mut [Session])
    requires { AreSeated sessions.old station.old.seats }
    ensures served { AreServedBy station.new.runner sessions.new }
    ensures seated { AreSeated sessions.new station.new.seats }
    ensures sessions { EachSession SaysSame sessions.old sessions.new }
    ensures runner { station.new.runner ≡ station.old.runner }
    ensures stay { StaySeated station.old.seats station.new.seats }
{
    for place in 0..sessions.len() {
        settle_one(station, sessions, place);
    }
}

fn settle_one(station: &mut Station, sessions: &mut [Session], place: usize)
    requires inside { place < length sessions.old }
    requires seated { AreSeated sessions.old station.old.seats }
    ensures { SettlesHere place station.old sessions.old station.new sessions.new }
{
    station.beside(&mut sessions[place]);
}
