// A turn of a station that tells what it sent, and whose rings it gave replies.
ghost use Rattle.std.specs.Prelude.{◌≡◌, ◌≢◌, true, false};
ghost use Rattle.lt_mail.specs.Telling.{TellsGiven};
ghost use Rattle.lt_runner.specs.declared.choice.Choice.TheVariants as choices;
ghost use Rattle.lt_runner.specs.declared.turning.Turned.TheVariants as turns;
ghost use Rattle.lt_runner.specs.Choices.{next_choice};
ghost use Rattle.lt_runner.specs.Kept.{Grew, TurnEnds, HasPassedOn, IsFlushed};
ghost use Rattle.lt_live.specs.Live.{GoesOn};
ghost use Rattle.lt_live.specs.Stations.{IsStation, StationTurns, StaySeated};
ghost use Rattle.lt_live.specs.Told.{AddsClients};

use crate::answering::answer_all;
use crate::clients::Clients;
use crate::ends::Seat;
use crate::station::Station;
use crate::turning::{append_all, take_all};
use lt_runner::{Gate, Runner, Turned};

/// How a turn ended, and which nodes it reached.
#[derive(Clone, Copy, Debug, PartialEq, Eq)]
pub struct TurnReport {
    pub turned: Turned,
    /// The nodes whose rings were given letters, bit q for node q.
    pub sent: u64,
}

impl Station {
    /// Makes a turn, as `turn` does, and then gives the rings what waits in the outboxes. It tells which rings were given
    /// letters, and adds those clients to `told` whose rings were given replies.
    pub fn turn_telling<G: Gate>(&mut self, gate: &G, told: &mut Clients) -> TurnReport
        ensures turns { StationTurns result.turned self.old.runner self.old.seats self.new.runner self.new.seats }
        ensures sent { TellsGiven result.sent self.old.runner.mail self.new.runner.mail }
        ensures told { AddsClients told.old told.new self.old.seats self.new.seats }
        ensures flushed { result.turned ≢ turns.NoMemory → IsFlushed self.new.runner }
        ensures goes_on { GoesOn self.old.runner self.new.runner }
        ensures seated { StaySeated self.old.seats self.new.seats }
    {
        turn_of_telling(&mut self.seats, &mut self.runner, gate, told)
    }
}

// Takes commands in and appends them, makes one move, sends what waits, and tells the replies.
fn turn_of_telling<G: Gate>(
    seats: &mut Vec<Seat>,
    runner: &mut Runner,
    gate: &G,
    told: &mut Clients,
) -> TurnReport
    requires { IsStation runner.old seats.old.items }
    ensures kept { IsStation runner.new seats.new.items }
    ensures turns { StationTurns result.turned runner.old seats.old.items runner.new seats.new.items }
    ensures sent { TellsGiven result.sent runner.old.mail runner.new.mail }
    ensures told { AddsClients told.old told.new seats.old.items seats.new.items }
    ensures flushed { result.turned ≢ turns.NoMemory → IsFlushed runner.new }
{
    take_all(seats);
    let fits = append_all(seats, runner);
    let (turned, sent) = make_move_telling(runner, fits, gate);
    runner.kept();
    // There are no more clients than bits.
    runner.commands();
    answer_all(seats, runner.log(), told);
    TurnReport { turned, sent }
}

// Makes one move, where memory didn't run out before, and sends what waits.
#[tactic(auto, using(lt_runner::proofs::TurnLemmas::grew_self, crate::proofs::Marking::tells_nothing))]
fn make_move_telling<G: Gate>(runner: &mut Runner, fits: bool, gate: &G) -> (Turned, u64)
    ensures grew { Grew runner.old runner.new }
    ensures ends { fits ≡ true → TurnEnds result.0 runner.old runner.new }
    ensures shown { fits ≡ true → next_choice runner.old ≢ choices.Nothing → result.0 ≢ turns.Quiet }
    ensures passed { fits ≡ true → HasPassedOn runner.old runner.new }
    ensures flushed { fits ≡ true → IsFlushed runner.new }
    ensures memory { fits ≡ false → (result.0 ≡ turns.NoMemory) × (runner.new ≡ runner.old) }
    ensures sent { TellsGiven result.1 runner.old.mail runner.new.mail }
{
    if fits {
        runner.turn_telling(gate)
    } else {
        (Turned::NoMemory, 0)
    }
}
