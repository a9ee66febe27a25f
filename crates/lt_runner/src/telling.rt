// A turn that flushes the outboxes, and tells which rings it gave letters.
ghost use Rattle.std.specs.Prelude.{◌≡◌, ◌≢◌, IfSome, IfNone};
ghost use Rattle.lt_mail.specs.Telling.{TellsGiven};
ghost use Rattle.lt_runner.specs.declared.choice.Choice.TheVariants as choices;
ghost use Rattle.lt_runner.specs.declared.turning.Found.TheVariants as finds;
ghost use Rattle.lt_runner.specs.declared.turning.Turned.TheVariants as endings;
ghost use Rattle.lt_runner.specs.Choices.{next_choice};
ghost use Rattle.lt_runner.specs.Kept.{RunnerInvariant, SameRunner, Grew, AsSeen, CouldMove, IsFlushed, KnowsNoLetter, HasPassedOn, FindEnds, MovedOne, TurnEnds, KeepsGiven};

use crate::choice::{Choice, choose};
use crate::gate::Gate;
use crate::parts::Parts;
use crate::runner::Runner;
use crate::turning::{Found, Turned};

impl Runner {
    /// Makes one turn, flushes the outboxes, and tells which rings were given letters, bit q for the one to node q.
    pub fn turn_telling<G: Gate>(&mut self, gate: &G) -> (Turned, u64)
        ensures grew { Grew self.old self.new }
        ensures ends { TurnEnds result.0 self.old self.new }
        ensures passed { HasPassedOn self.old self.new }
        ensures flushed { IsFlushed self.new }
        ensures shown { next_choice self.old ≢ choices.Nothing → result.0 ≢ endings.Quiet }
        ensures sent { TellsGiven result.1 self.old.mail self.new.mail }
    {
        self.parts.as_mut().turn_telling(gate)
    }
}

impl Parts {
    /// Sends what waits in the outboxes, looks for a move, makes it, and sends what then waits. It tells which rings were
    /// given letters, bit q for the one to node q.
    pub fn turn_telling<G: Gate>(&mut self, gate: &G) -> (Turned, u64)
        requires { RunnerInvariant self.old }
        ensures kept { RunnerInvariant self.new }
        ensures same { SameRunner self.old self.new }
        ensures ends { TurnEnds result.0 self.old self.new }
        ensures passed { HasPassedOn self.old self.new }
        ensures flushed { IsFlushed self.new }
        ensures choice { next_choice self.old ≢ choices.Nothing → result.0 ≢ endings.Quiet }
        ensures sent { TellsGiven result.1 self.old.mail self.new.mail }
    {
        let (found, sent) = self.find_telling();
        match found {
            Found::Quiet => (Turned::Quiet, sent),
            Found::Full => (Turned::Full, sent),
            Found::Move(choice) => match self.make_telling(choice, gate) {
                Some(more) => (Turned::Moved, sent | more),
                None => (Turned::NoMemory, sent),
            },
        }
    }

    // Makes the move that was found, if there is memory for it, and sends what then waits.
    fn make_telling<G: Gate>(&mut self, choice: Choice, gate: &G) -> Option<u64>
        requires kept { RunnerInvariant self.old }
        requires chosen { next_choice self.old ≡ choice }
        requires could { CouldMove self.old }
        requires flushed { IsFlushed self.old }
        ensures kept { RunnerInvariant self.new }
        ensures same { SameRunner self.old self.new }
        ensures passed { HasPassedOn self.old self.new }
        ensures flushed { IsFlushed self.new }
        ensures moved { IfSome result (λ sent. MovedOne self.old self.new) }
        ensures sent { IfSome result (λ sent. TellsGiven sent self.old.mail self.new.mail) }
        ensures none { IfNone result (AsSeen self.old self.new × CouldMove self.new) }
        ensures given { IfNone result (KeepsGiven self.old self.new) }
    {
        if !self.make_found(choice, gate) {
            return None;
        }
        Some(self.flush_telling())
    }

    // Gives the rings what waits in the outboxes, and looks for a letter and then for a client that can act.
    fn find_telling(&mut self) -> (Found, u64)
        requires { RunnerInvariant self.old }
        ensures kept { RunnerInvariant self.new }
        ensures seen { AsSeen self.old self.new }
        ensures flushed { IsFlushed self.new }
        ensures ends { FindEnds result.0 self.new }
        ensures shown { next_choice self.old ≢ choices.Nothing → result.0 ≢ finds.Quiet }
        ensures sent { TellsGiven result.1 self.old.mail self.new.mail }
    {
        let sent = self.look_telling();
        match choose(self) {
            Choice::Nothing => {
                self.idle = true;
                (Found::Quiet, sent)
            }
            _ if self.log.len() >= self.limit => (Found::Full, sent),
            choice => (Found::Move(choice), sent),
        }
    }

    // Gives the rings what waits in the outboxes, and takes a letter where none is in hand.
    fn look_telling(&mut self) -> u64
        requires { RunnerInvariant self.old }
        ensures kept { RunnerInvariant self.new }
        ensures seen { AsSeen self.old self.new }
        ensures flushed { IsFlushed self.new }
        ensures rings { KnowsNoLetter self.new }
        ensures sent { TellsGiven result self.old.mail self.new.mail }
    {
        let sent = self.flush_telling();
        if self.hand.is_none() {
            self.fill_hand();
        }
        sent
    }

    // Gives the rings what waits in the outboxes, and tells which these are.
    fn flush_telling(&mut self) -> u64
        requires { RunnerInvariant self.old }
        ensures kept { RunnerInvariant self.new }
        ensures seen { AsSeen self.old self.new }
        ensures hand { self.new.hand ≡ self.old.hand }
        ensures flushed { IsFlushed self.new }
        ensures sent { TellsGiven result self.old.mail self.new.mail }
    {
        // There are no more nodes than bits.
        self.node.me();
        self.mail.flush_all_telling()
    }
}
