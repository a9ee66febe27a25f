// A station in its parts, whose runner makes moves elsewhere meanwhile.
ghost use Rattle.std.specs.Prelude.{◌≡◌};
ghost use Rattle.lt_live.specs.Stations.{IsStation};

use crate::ends::Seat;
use crate::station::Station;
use lt_runner::Runner;

impl Station {
    /// What a station keeps.
    pub fn kept(&self)
        ensures { IsStation self.now.runner self.now.seats }
    {
        let _ = &self.runner;
    }

    /// The station of these parts.
    pub fn from_parts(runner: Runner, seats: Vec<Seat>) -> Station
        requires { IsStation runner seats.items }
        ensures { result ≡ record { runner = runner; seats = seats.items } }
    {
        Station { runner, seats }
    }
}
