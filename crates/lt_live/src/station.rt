ghost use Rattle.std.specs.Prelude.{◌≡◌, [], ◌∷◌, ◌++◌, length, OnOk};
ghost use Rattle.lt_spec.specs.NodeMove.{AreAt, node_waits};
ghost use Rattle.lt_spec.specs.Script.{IsScript};
ghost use Rattle.lt_node.specs.NodeData.{state_of, kept_script};
ghost use Rattle.lt_live.specs.Stations.{AreOthers, IsStation, IsSeatOf, IsSeated, StaySeated, SeatLooks, StationTurns};
ghost use Rattle.lt_live.specs.Live.{GoesOn, ServedBy};

use crate::ends::{Seat, Session};
use crate::looking::beside_at;
use crate::turning::turn_of;
use lt_runner::{Gate, Runner, Turned};
use lt_script::Script;
use std::alloc::{AllocError, Global};
use std::marker::Model;

/// What serves the sessions of a node's clients: the node's runner, and its ends of their rings.
pub struct Station {
    pub(crate) runner: Runner,
    pub(crate) seats: Vec<Seat>,
}

impl Model for Station {
    ghost use Rattle.lt_live.specs.Stations.{StationData, IsStation};

    ghost Value = { StationData };

    ghost view = { λ s. record { runner = s.runner; seats = s.seats.items } };

    ghost invariant = { λ s. IsStation s.runner s.seats.items };
}

// Written out, so that all places which let a station go call this.
impl Drop for Station {
    fn drop(self) {
        let Station { runner, seats } = self;
        drop(runner);
        drop(seats);
    }
}

impl Station {
    /// A station with this runner, and no seats yet.
    #[tactic(auto, using(crate::proofs::KeptStations::station_first))]
    pub(crate) fn new(alloc: Global, runner: Runner) -> Station
        requires { AreAt runner.node.script runner.node.me runner.node.script.commands }
        ensures { result ≡ record { runner = runner; seats = [] } }
    {
        Station {
            runner,
            seats: Vec::new(alloc),
        }
    }

    /// The number of its node.
    pub fn node(&self) -> u8
        ensures { result ≡ self.now.runner.node.me }
    {
        self.runner.me()
    }

    /// How many sessions have their other ends here.
    pub(crate) fn seats(&self) -> usize
        ensures { result ≡ length self.now.seats }
    {
        self.seats.len()
    }

    /// One seat more, of a client that has none here. Without memory the seat is dropped.
    pub(crate) fn add_seat(&mut self, seat: Seat) -> Result<(), AllocError>
        requires seat { IsSeatOf self.old.runner seat }
        requires others { AreOthers seat.client self.old.seats }
        ensures runner { self.new.runner ≡ self.old.runner }
        ensures seats { OnOk result (self.new.seats ≡ self.old.seats ++ seat ∷ []) }
    {
        self.seats.push(seat)?;
        Ok(())
    }

    /// Takes at most one command of each client for whom no reply waits here, makes one move, and tells what replies
    /// there are.
    ///
    /// A command that finds no memory stays in hand, and is appended in a later turn. After `NoMemory` no move was made in
    /// this turn, and what was appended stays.
    pub fn turn<G: Gate>(&mut self, gate: &G) -> Turned
        ensures turns { StationTurns result self.old.runner self.old.seats self.new.runner self.new.seats }
        ensures goes_on { GoesOn self.old.runner self.new.runner }
        ensures seated { StaySeated self.old.seats self.new.seats }
    {
        turn_of(&mut self.seats, &mut self.runner, gate)
    }

    /// Looks at the rings of a session from both ends. Replies that wait go into their ring as far as it takes them; then
    /// each side knows all that is in its ring.
    pub fn beside(&mut self, session: &mut Session)
        requires { IsSeated session.old self.old.seats }
        ensures looks { SeatLooks self.old.runner.log.entries session.old session.new self.old.seats self.new.seats }
        ensures seated { IsSeated session.new self.new.seats }
        ensures stay { StaySeated self.old.seats self.new.seats }
        ensures served { ServedBy self.old.runner session.old.client session.new }
        ensures runner { self.new.runner ≡ self.old.runner }
    {
        beside_at(&mut self.seats, session, &self.runner);
    }

    /// The script, with the commands that were appended here, without those that were forgotten.
    pub fn script(&self) -> &Script
        ensures kept { result.now ≡ kept_script self.now.runner.node }
        ensures whole { self.now.runner.node.gone ≡ 0 → result.now ≡ self.now.runner.node.script }
    {
        self.runner.script()
    }

    /// How many commands were appended here, forgotten or not.
    pub fn commands(&self) -> u64
        ensures commands { result ≡ length self.now.runner.node.script.commands }
        ensures script { IsScript self.now.runner.node.script }
    {
        self.runner.commands()
    }

    /// The runner, and the ends of the sessions.
    pub fn into_parts(self) -> (Runner, Vec<Seat>)
        ensures runner { result.0 ≡ self.runner }
        ensures seats { result.1.items ≡ self.seats }
        ensures kept { IsStation self.runner self.seats }
    {
        let Station { runner, seats } = self;
        (runner, seats)
    }

    /// The runner alone; the seats are dropped, so that sessions have no other ends any more.
    pub(crate) fn into_runner(self) -> Runner
        ensures { result ≡ self.runner }
    {
        let Station { runner, seats } = self;
        drop(seats);
        runner
    }

    /// Whether the client waits at this station's node.
    pub fn waits(&self, client: u16) -> bool
        ensures { result ≡ node_waits self.now.runner.node.script (state_of self.now.runner.node) client }
    {
        self.runner.waits(client)
    }
}
