// What a node says of its sessions and of the letters that were carried.
ghost use Rattle.std.specs.Prelude.{◌≡◌, ◌<◌};
ghost use Rattle.lt_runner.specs.Kept.{AsSeen};
ghost use Rattle.lt_live.specs.Live.{EachSession, SaysSame, GoesOn};
ghost use Rattle.lt_live.specs.OneNode.{AreSeated, AreServedBy};
ghost use Rattle.lt_live.specs.Stations.{StaySeated};
ghost use Rattle.lt_mail.specs.Star.{AreFarEnds};
ghost use Rattle.lt_mail.specs.Words.{outs_count};
ghost use Rattle.lt_apart.specs.Remote.{CarriesNone};
ghost use Rattle.lt_apart.specs.Telling.{IsTold, HaveEndsLooked, LooksAtOne};

use crate::remote::Remote;
use lt_live::{Session, Station, settle};
use lt_mail::Mail;

impl Remote {
    /// Each of these sessions was served so far by this node, which is one of the nodes of its script whose letters are
    /// carried: of all of them a law says what they made together.
    ///
    /// It looks at the node's rings and at those of the sessions from both ends; it makes no move and wants no memory.
    pub fn told(&mut self, sessions: &mut [Session])
        requires { AreSeated sessions.old self.old.station.seats }
        ensures now { IsTold self.old self.new }
        ensures served { AreServedBy self.new.station.runner sessions.new }
        ensures runner { AsSeen self.old.station.runner self.new.station.runner }
        ensures goes_on { GoesOn self.old.station.runner self.new.station.runner }
        ensures carried { CarriesNone self.old self.new }
        ensures sessions { EachSession SaysSame sessions.old sessions.new }
        ensures seated { AreSeated sessions.new self.new.station.seats }
        ensures stay { StaySeated self.old.station.seats self.new.station.seats }
    {
        settle(&mut self.station, sessions);
        look_at_rings(&mut self.station, &mut self.ends.far);
        self.station.runner_kept();
        self.station.kept();
    }
}

// Looks at the ring to and from each node.
#[tactic(auto, using(crate::proofs::Looking::looked_none))]
fn look_at_rings(station: &mut Station, far: &mut Mail)
    requires near { outs_count station.old.runner.mail ≡ station.old.runner.node.script.nodes }
    requires ends { AreFarEnds station.old.runner.mail far.old }
    ensures { HaveEndsLooked station.old.runner.node.script.nodes station.old station.new far.old far.new }
{
    for node in 0..station.script().nodes() {
        look_at_ring(station, far, node);
    }
}

// Looks at the ring to and from one node.
fn look_at_ring(station: &mut Station, far: &mut Mail, node: u8)
    requires below { node < outs_count station.old.runner.mail }
    requires ends { AreFarEnds station.old.runner.mail far.old }
    ensures { LooksAtOne node station.old station.new far.old far.new }
{
    station.meet_taker(far, node);
    station.meet_sender(far, node);
}
