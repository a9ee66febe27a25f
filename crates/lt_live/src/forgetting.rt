// Moves that are forgotten, once all seats have read them, and commands that are.
ghost use Rattle.std.specs.Prelude.{◌≡◌, ◌<◌, ◌↔◌, length, IsTrue, OnOk, OnErr};
ghost use Rattle.lt_runner.specs.Kept.{HasAll};
ghost use Rattle.lt_live.specs.Seats.{HasReadOn};
ghost use Rattle.lt_live.specs.Stations.{IsStation, EachSeat, SeatAt, HasCursorAt, HaveCursors, HasReadAt, HaveRead, HasForgotten, MayForget, ForgetsCommands};
ghost use Rattle.lt_live.specs.Live.{StationGoesOn};

use crate::ends::Seat;
use crate::station::Station;
use lt_log::LongLog;
use lt_runner::Runner;
use std::alloc::{AllocError, Global};

impl Station {
    /// Whether it has forgotten no moves and no commands.
    pub fn has_all(&self) -> bool
        ensures { IsTrue result ↔ HasAll self.now.runner }
    {
        self.runner.has_all()
    }

    /// Forgets the moves that were made, and keeps their memory for further ones. Replies that found no place in a ring yet
    /// wait here.
    ///
    /// All that it takes is the memory for these. Without it no move is forgotten.
    pub fn forget_moves(&mut self) -> Result<(), AllocError>
        ensures forgets { MayForget self.old.runner self.old.seats self.new.runner self.new.seats }
        ensures all { OnOk result (HasForgotten self.new.runner self.new.seats) }
        ensures none { OnErr result (self.new.runner ≡ self.old.runner) }
        ensures goes_on { StationGoesOn self.old self.new }
    {
        forget_of(&mut self.seats, &mut self.runner)
    }

    /// Forgets all commands that were appended so far, apart from those that the clients are still to make.
    #[tactic(auto, using(crate::proofs::Forgotten::goes_without))]
    pub fn forget_commands(&mut self, alloc: Global) -> Result<(), AllocError>
        ensures forgets { ForgetsCommands self.old self.new }
        ensures all { OnOk result (self.new.runner.node.gone ≡ length self.old.runner.node.script.commands) }
        ensures none { OnErr result (self.new ≡ self.old) }
        ensures goes_on { StationGoesOn self.old self.new }
    {
        self.runner.forget_commands(alloc)
    }
}

/// Lets all seats read the log to its end, and then the runner forgets its moves.
pub(crate) fn forget_of(seats: &mut Vec<Seat>, runner: &mut Runner) -> Result<(), AllocError>
    requires { IsStation runner.old seats.old.items }
    ensures kept { IsStation runner.new seats.new.items }
    ensures forgets { MayForget runner.old seats.old.items runner.new seats.new.items }
    ensures all { OnOk result (HasForgotten runner.new seats.new.items) }
    ensures none { OnErr result (runner.new ≡ runner.old) }
{
    runner.kept();
    read_all(seats, runner.log())?;
    runner.forget_moves();
    Ok(())
}

// Each seat reads the log to its end; without memory the first ones do.
fn read_all(seats: &mut Vec<Seat>, log: &LongLog) -> Result<(), AllocError>
    requires { HaveCursors log.now seats.old.items }
    ensures reads { EachSeat (HasReadOn log.now.entries) seats.old.items seats.new.items }
    ensures all { OnOk result (HaveRead log.now.entries seats.new.items) }
{
    for place in 0..seats.len() {
        read_at(seats, log, place)?;
    }
    Ok(())
}

fn read_at(seats: &mut Vec<Seat>, log: &LongLog, place: usize) -> Result<(), AllocError>
    requires inside { place < length seats.old.items }
    requires cursor { HasCursorAt log.now seats.old.items place }
    ensures reads { SeatAt (HasReadOn log.now.entries) place seats.old.items seats.new.items }
    ensures all { OnOk result (HasReadAt log.now.entries seats.new.items place) }
{
    seats[place].read_on(log)?;
    Ok(())
}
