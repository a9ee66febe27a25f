ghost use Rattle.std.specs.Prelude.{◌≡◌, ◌<◌, ◌≤◌, ℕ, OnOk, OnErr, length};
ghost use Rattle.lt_spec.specs.Script.{IsScript};
ghost use Rattle.lt_runner.specs.Choices.{misfit};
ghost use Rattle.lt_live.specs.Live.{GoesOn};
ghost use Rattle.lt_live.specs.Stations.{StationTurns, StaySeated, MayForget, HasForgotten, ForgetsCommands};
ghost use Rattle.lt_apart.specs.Remote.{me, nodes, brought, given, CarriesNone};

use crate::ends::Ends;
use lt_live::Station;
use lt_runner::{Gate, Runner, Turned};
use std::alloc::{AllocError, Global};
use std::marker::Model;

/// A node in a process of its own, with the sessions of its clients.
pub struct Remote {
    pub(crate) service: u64,
    pub(crate) key: Vec<u8>,
    pub(crate) station: Station,
    pub(crate) ends: Ends,
}

impl Model for Remote {
    ghost use Rattle.lt_apart.specs.Remote.{RemoteData, HasFarEnds};

    ghost Value = { RemoteData };

    ghost view = { λ r. record { service = r.service; key = r.key.items; station = r.station; far = r.ends.far } };

    ghost invariant = { λ r. HasFarEnds r.station.runner r.ends.far r.ends.given.items r.ends.brought.items };
}

// Written out, so that all places which let a node go call this.
impl Drop for Remote {
    fn drop(self) {
        let Remote {
            service: _,
            key,
            station,
            ends,
        } = self;
        drop(key);
        drop(station);
        drop(ends);
    }
}

impl Remote {
    /// The number of its node.
    pub fn node(&self) -> u8
        ensures { result ≡ me self.now }
    {
        self.station.node()
    }

    /// How many nodes there are.
    pub fn nodes(&self) -> u8
        ensures { result ≡ nodes self.now }
    {
        self.station.script().nodes()
    }

    /// How many letters for a node were given out; the next one has this number.
    pub fn given(&self, to: u8) -> u64
        requires peer { to < nodes self.now }
        ensures { result ≡ length (given self.now to) }
    {
        self.ends.given[usize::from(to)]
    }

    /// How many letters of a node were brought in; the next one has this number.
    pub fn brought(&self, from: u8) -> u64
        requires peer { from < nodes self.now }
        ensures { result ≡ length (brought self.now from) }
    {
        self.ends.brought[usize::from(from)]
    }

    /// Takes commands of the node's clients, makes one move, and tells what replies there are, as a station does.
    pub fn turn<G: Gate>(&mut self, gate: &G) -> Turned
        ensures turns { StationTurns result self.old.station.runner self.old.station.seats self.new.station.runner
            self.new.station.seats }
        ensures goes_on { GoesOn self.old.station.runner self.new.station.runner }
        ensures seated { StaySeated self.old.station.seats self.new.station.seats }
        ensures carried { CarriesNone self.old self.new }
    {
        self.ends.far.flush_all();
        self.station.turn(gate)
    }

    /// The node whose letter is next and doesn't fit. It was made by no node that was opened with this script; it is
    /// never taken, and no letter after it.
    pub fn misfit(&self) -> Option<u8>
        ensures { result ≡ misfit self.now.station.runner }
    {
        self.station.misfit()
    }

    /// What serves its sessions.
    pub fn station(&self) -> &Station
        ensures { result.now ≡ self.now.station }
    {
        &self.station
    }

    /// How many commands were appended here, forgotten or not.
    pub fn commands(&self) -> u64
        ensures commands { result ≡ length self.now.station.runner.node.script.commands }
        ensures script { IsScript self.now.station.runner.node.script }
    {
        self.station.commands()
    }

    /// Forgets the moves that were made, as a station does.
    pub fn forget_moves(&mut self) -> Result<(), AllocError>
        ensures forgets { MayForget self.old.station.runner self.old.station.seats self.new.station.runner
            self.new.station.seats }
        ensures all { OnOk result (HasForgotten self.new.station.runner self.new.station.seats) }
        ensures none { OnErr result (self.new.station.runner ≡ self.old.station.runner) }
        ensures goes_on { GoesOn self.old.station.runner self.new.station.runner }
        ensures seated { StaySeated self.old.station.seats self.new.station.seats }
        ensures carried { CarriesNone self.old self.new }
    {
        self.station.forget_moves()
    }

    /// Forgets the commands that its clients have made, as a station does.
    pub fn forget_commands(&mut self, alloc: Global) -> Result<(), AllocError>
        ensures forgets { ForgetsCommands self.old.station self.new.station }
        ensures all { OnOk result (self.new.station.runner.node.gone
            ≡ length self.old.station.runner.node.script.commands) }
        ensures none { OnErr result (self.new ≡ self.old) }
        ensures goes_on { GoesOn self.old.station.runner self.new.station.runner }
        ensures seated { StaySeated self.old.station.seats self.new.station.seats }
        ensures carried { CarriesNone self.old self.new }
    {
        self.station.forget_commands(alloc)
    }

    /// The node's runner alone; its sessions have no other ends any more.
    pub(crate) fn into_runner(self) -> Runner
        ensures { result ≡ self.station.runner }
    {
        let Remote {
            service: _,
            key,
            station,
            ends,
        } = self;
        drop(key);
        drop(ends);
        let (runner, seats) = station.into_parts();
        drop(seats);
        runner
    }
}
