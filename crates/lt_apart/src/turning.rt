// Turns of a node in a process of its own that tell whom they reached.
ghost use Rattle.std.specs.Prelude.{◌≢◌, ◌<◌};
ghost use Rattle.lt_mail.specs.Telling.{TellsGiven};
ghost use Rattle.lt_runner.specs.Kept.{IsFlushed};
ghost use Rattle.lt_runner.specs.declared.turning.Turned.TheVariants as turns;
ghost use Rattle.lt_spec.specs.Script.{HasTargets, IsOfVersion};
ghost use Rattle.rtrb.specs.Ring.{known_free};
ghost use Rattle.lt_live.specs.declared.obeying.Obeyed.TheVariants as ends;
ghost use Rattle.lt_live.specs.Live.{GoesOn};
ghost use Rattle.lt_live.specs.Obeying.{Obeys};
ghost use Rattle.lt_live.specs.Stations.{StationTurns, StaySeated};
ghost use Rattle.lt_live.specs.Told.{AddsClients};
ghost use Rattle.lt_live.specs.Words.{SameSession};
ghost use Rattle.lt_apart.specs.Remote.{CarriesNone};

use crate::remote::Remote;
use lt_live::{Clients, ObeyReport, Session, TurnReport};
use lt_modes::Command;
use lt_runner::Gate;

impl Remote {
    /// Makes a turn, as a station does, and tells for which nodes letters were given to the rings, from which they are
    /// carried, and adds those clients to `told` whose rings were given replies.
    pub fn turn_telling<G: Gate>(&mut self, gate: &G, told: &mut Clients) -> TurnReport
        ensures turns { StationTurns result.turned self.old.station.runner self.old.station.seats
            self.new.station.runner self.new.station.seats }
        ensures sent { TellsGiven result.sent self.old.station.runner.mail self.new.station.runner.mail }
        ensures told { AddsClients told.old told.new self.old.station.seats self.new.station.seats }
        ensures flushed { result.turned ≢ turns.NoMemory → IsFlushed self.new.station.runner }
        ensures goes_on { GoesOn self.old.station.runner self.new.station.runner }
        ensures seated { StaySeated self.old.station.seats self.new.station.seats }
        ensures carried { CarriesNone self.old self.new }
    {
        self.ends.far.flush_all();
        self.station.turn_telling(gate, told)
    }

    /// Submits the command, and then makes turns until the session is told its next reply, or a turn makes no move, as a
    /// station does. Letters that come in meanwhile wait for a later turn.
    pub fn obey<G: Gate>(
        &mut self,
        session: &mut Session,
        command: Command,
        gate: &G,
        told: &mut Clients,
    ) -> ObeyReport
        requires left { 0 < session.old.left }
        requires targets { HasTargets session.old.script.sets session.old.script.clients session.old.client command }
        requires modes { IsOfVersion session.old.script.version command }
        ensures obeys { Obeys result.obeyed command session.old session.new self.old.station self.new.station }
        ensures place { 0 < known_free session.old.commands → result.obeyed ≢ ends.Refused }
        ensures sent { TellsGiven result.sent self.old.station.runner.mail self.new.station.runner.mail }
        ensures told { AddsClients told.old told.new self.old.station.seats self.new.station.seats }
        ensures same { SameSession session.old session.new }
        ensures goes_on { GoesOn self.old.station.runner self.new.station.runner }
        ensures seated { StaySeated self.old.station.seats self.new.station.seats }
        ensures carried { CarriesNone self.old self.new }
    {
        self.ends.far.flush_all();
        self.station.obey(session, command, gate, told)
    }
}
