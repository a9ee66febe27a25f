// A command that is submitted at its station, which makes turns until it is answered.
ghost use Rattle.std.specs.Prelude.{◌≢◌, ◌<◌, IfSome, IfNone};
ghost use Rattle.lt_mail.specs.Telling.{TellsGiven};
ghost use Rattle.lt_spec.specs.Script.{HasTargets, IsOfVersion};
ghost use Rattle.rtrb.specs.Ring.{known_free};
ghost use Rattle.lt_live.specs.declared.obeying.Obeyed.TheVariants as ends;
ghost use Rattle.lt_live.specs.Live.{GoesOn};
ghost use Rattle.lt_live.specs.Obeying.{Obeys, ObeyTurns, GoesOnTurning, StopsTurning};
ghost use Rattle.lt_live.specs.Stations.{StaySeated};
ghost use Rattle.lt_live.specs.Told.{AddsClients};
ghost use Rattle.lt_live.specs.Words.{SameSession};

use crate::clients::Clients;
use crate::ends::Session;
use crate::reply::Reply;
use crate::station::Station;
use lt_modes::Command;
use lt_runner::{Gate, Turned};

/// How many turns a station makes at most for a command.
pub const MOST_TURNS: u32 = 64;

/// How a command ended that a station was given.
#[derive(Clone, Copy, Debug, PartialEq, Eq)]
pub enum Obeyed {
    /// The ring had no place for it, and nothing happened.
    Refused,
    /// This is the session's next reply.
    Told(Reply),
    /// It was submitted, and the session's next reply is still to come.
    Waits,
    /// So it is too, and the log is full.
    Full,
    /// So it is too, and there is no memory for the next move.
    NoMemory,
}

/// How a command ended, and which nodes the turns for it reached.
#[derive(Clone, Copy, Debug, PartialEq, Eq)]
pub struct ObeyReport {
    pub obeyed: Obeyed,
    /// The nodes whose rings were given letters, bit q for node q.
    pub sent: u64,
}

impl Station {
    /// Submits the command, and then makes turns until the session is told its next reply, or a turn makes no move; 64 at
    /// most. It tells which rings were given letters in these turns, and adds those clients to `told` whose rings were
    /// given replies.
    ///
    /// Where the session had commands that aren't answered yet, its next reply is that to the first of these.
    pub fn obey<G: Gate>(
        &mut self,
        session: &mut Session,
        command: Command,
        gate: &G,
        told: &mut Clients,
    ) -> ObeyReport
        requires left { 0 < session.old.left }
        requires targets { HasTargets session.old.script.sets session.old.script.clients session.old.client command }
        requires modes { IsOfVersion session.old.script.version command }
        ensures obeys { Obeys result.obeyed command session.old session.new self.old self.new }
        ensures place { 0 < known_free session.old.commands → result.obeyed ≢ ends.Refused }
        ensures sent { TellsGiven result.sent self.old.runner.mail self.new.runner.mail }
        ensures told { AddsClients told.old told.new self.old.seats self.new.seats }
        ensures same { SameSession session.old session.new }
        ensures goes_on { GoesOn self.old.runner self.new.runner }
        ensures seated { StaySeated self.old.seats self.new.seats }
    {
        match session.submit(command) {
            Ok(()) => self.turn_until_told(session, gate, told),
            Err(_) => ObeyReport {
                obeyed: Obeyed::Refused,
                sent: 0,
            },
        }
    }

    // Makes turns until the session is told a reply, or a turn makes no move.
    fn turn_until_told<G: Gate>(
        &mut self,
        session: &mut Session,
        gate: &G,
        told: &mut Clients,
    ) -> ObeyReport
        ensures turns { ObeyTurns result.obeyed session.old session.new self.old self.new }
        ensures sent { TellsGiven result.sent self.old.runner.mail self.new.runner.mail }
        ensures told { AddsClients told.old told.new self.old.seats self.new.seats }
        ensures same { SameSession session.old session.new }
        ensures goes_on { GoesOn self.old.runner self.new.runner }
        ensures seated { StaySeated self.old.seats self.new.seats }
    {
        let mut sent = 0;
        let mut turns = 0;
        while turns < MOST_TURNS {
            let (more, end) = self.turn_and_poll(session, gate, told);
            sent |= more;
            match end {
                Some(obeyed) => return ObeyReport { obeyed, sent },
                None => turns += 1,
            }
        }
        ObeyReport {
            obeyed: Obeyed::Waits,
            sent,
        }
    }

    // Makes a turn and polls: which rings were given letters, and how the command ended, or that the turn made a move
    // and no reply is known.
    fn turn_and_poll<G: Gate>(
        &mut self,
        session: &mut Session,
        gate: &G,
        told: &mut Clients,
    ) -> (u64, Option<Obeyed>)
        ensures more { IfNone result.1 (GoesOnTurning session.old session.new self.old self.new) }
        ensures end { IfSome result.1 (λ obeyed. StopsTurning obeyed session.old session.new self.old self.new) }
        ensures sent { TellsGiven result.0 self.old.runner.mail self.new.runner.mail }
        ensures told { AddsClients told.old told.new self.old.seats self.new.seats }
        ensures same { SameSession session.old session.new }
        ensures goes_on { GoesOn self.old.runner self.new.runner }
        ensures seated { StaySeated self.old.seats self.new.seats }
    {
        let report = self.turn_telling(gate, told);
        if let Some(reply) = session.poll() {
            return (report.sent, Some(Obeyed::Told(reply)));
        }
        match report.turned {
            Turned::Moved => (report.sent, None),
            Turned::Quiet => (report.sent, Some(Obeyed::Waits)),
            Turned::Full => (report.sent, Some(Obeyed::Full)),
            Turned::NoMemory => (report.sent, Some(Obeyed::NoMemory)),
        }
    }
}
