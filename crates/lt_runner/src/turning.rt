// Turns of a runner.
ghost use Rattle.std.specs.Prelude.{◌≡◌, ◌≢◌, ◌<◌, ℕ, IsOk, OnOk, IsTrue, IsFalse, length};
ghost use Rattle.lt_runner.specs.declared.choice.Choice.TheVariants as choices;
ghost use Rattle.lt_runner.specs.declared.turning.Found.TheVariants as finds;
ghost use Rattle.lt_runner.specs.declared.turning.Turned.TheVariants as endings;
ghost use Rattle.lt_runner.specs.Choices.{next_choice};
ghost use Rattle.lt_runner.specs.Kept.{RunnerInvariant, SameRunner, AsSeen, CouldMove, IsFlushed, HasPassedOn, SendsOn, KeepsRings, KeepsGiven, FindEnds, MovedOne, TurnEnds, Grew, WorkEnds};
ghost use Rattle.lt_runner.specs.Ready.{HasMemoryFor};
ghost use Rattle.lt_mail.specs.Words.{out_at};
ghost use Rattle.lt_runner.specs.declared.turning.Worked.TheVariants as answers;

use crate::choice::{Choice, choose};
use crate::gate::Gate;
use crate::parts::Parts;
use std::alloc::AllocError;

// How many commands are made at most after a look at the rings, before the next one.
const ACTS_A_LOOK: u32 = 32;

/// What is found where a move is looked for.
#[derive(Clone, Copy, Debug, PartialEq, Eq)]
pub enum Found {
    /// This move is there to be made, and the log has a place left.
    Move(Choice),
    Quiet,
    /// A move is there to be made, and the log is full.
    Full,
}

/// How a turn ended.
#[derive(Clone, Copy, Debug, PartialEq, Eq)]
pub enum Turned {
    Moved,
    /// No move was found.
    Quiet,
    /// A move was found, and the log is full.
    Full,
    /// A move was found, and the log has a place left, but there is no memory for it.
    NoMemory,
}

/// How turns ended.
#[derive(Clone, Copy, Debug, PartialEq, Eq)]
pub enum Worked {
    Idle,
    /// The log is full, and a move more is there to be made.
    Full,
    /// A move is there to be made, and the log has a place left, but there is no memory for it.
    NoMemory,
}

impl Parts {
    /// Gives the rings what waits in the outboxes, and looks for a letter and then for a client that can act.
    pub fn find(&mut self) -> Found
        requires { RunnerInvariant self.old }
        ensures kept { RunnerInvariant self.new }
        ensures seen { AsSeen self.old self.new }
        ensures flushed { IsFlushed self.new }
        ensures ends { FindEnds result self.new }
        ensures shown { next_choice self.old ≢ choices.Nothing → result ≢ finds.Quiet }
    {
        self.look();
        match choose(self) {
            Choice::Nothing => {
                self.idle = true;
                Found::Quiet
            }
            _ if self.log.len() >= self.limit => Found::Full,
            choice => Found::Move(choice),
        }
    }

    /// Makes room for the move that was found.
    pub fn reserve(&mut self, choice: Choice) -> Result<(), AllocError>
        requires kept { RunnerInvariant self.old }
        requires chosen { next_choice self.old ≡ choice }
        requires could { CouldMove self.old }
        ensures kept { RunnerInvariant self.new }
        ensures seen { AsSeen self.old self.new }
        ensures chosen { next_choice self.new ≡ choice }
        ensures could { CouldMove self.new }
        ensures memory { OnOk result (HasMemoryFor choice self.new) }
        ensures full { HasMemoryFor choice self.old → IsOk result }
        ensures outs { (node : ℕ) → out_at self.new.mail node ≡ out_at self.old.mail node }
    {
        match choice {
            Choice::Nothing => Ok(()),
            Choice::Act(client) => self.reserve_act(client),
            Choice::Take => self.reserve_take(),
        }
    }

    /// Makes the move that was found.
    pub fn make(&mut self, choice: Choice)
        requires kept { RunnerInvariant self.old }
        requires chosen { next_choice self.old ≡ choice }
        requires could { CouldMove self.old }
        requires memory { HasMemoryFor choice self.old }
        ensures kept { RunnerInvariant self.new }
        ensures same { SameRunner self.old self.new }
        ensures moved { MovedOne self.old self.new }
        ensures sent { SendsOn self.old self.new }
        ensures rings { KeepsRings self.old self.new }
    {
        match choice {
            Choice::Nothing => {}
            Choice::Act(client) => self.make_act(client),
            Choice::Take => self.make_take(),
        }
    }

    /// Sends what waits in the outboxes, looks for a move, and makes it.
    pub fn turn<G: Gate>(&mut self, gate: &G) -> Turned
        requires { RunnerInvariant self.old }
        ensures kept { RunnerInvariant self.new }
        ensures same { SameRunner self.old self.new }
        ensures ends { TurnEnds result self.old self.new }
        ensures passed { HasPassedOn self.old self.new }
        ensures flushed { result ≢ endings.Moved → IsFlushed self.new }
        ensures choice { next_choice self.old ≢ choices.Nothing → result ≢ endings.Quiet }
    {
        match self.find() {
            Found::Quiet => Turned::Quiet,
            Found::Full => Turned::Full,
            Found::Move(choice) => {
                if self.make_found(choice, gate) {
                    Turned::Moved
                } else {
                    Turned::NoMemory
                }
            }
        }
    }

    /// Makes the move that was found, if there is memory for it, and says whether there was.
    pub(crate) fn make_found<G: Gate>(&mut self, choice: Choice, gate: &G) -> bool
        requires kept { RunnerInvariant self.old }
        requires chosen { next_choice self.old ≡ choice }
        requires could { CouldMove self.old }
        ensures kept { RunnerInvariant self.new }
        ensures grew { Grew self.old self.new }
        ensures moved { IsTrue result → MovedOne self.old self.new }
        ensures none { IsFalse result → AsSeen self.old self.new × CouldMove self.new }
        ensures sent { SendsOn self.old self.new }
        ensures given { KeepsGiven self.old self.new }
        ensures passed { IsFlushed self.old → HasPassedOn self.old self.new }
        ensures flushed { IsFalse result → IsFlushed self.old → IsFlushed self.new }
        ensures full { HasMemoryFor choice self.old → IsTrue result }
    {
        if self.reserve(choice).is_err() {
            return false;
        }
        gate.pass(self.node.me());
        self.make(choice);
        true
    }
}

impl Parts {
    /// Makes turns until `patience` of them, one after the other, found no move, or one can't make the move it found.
    pub fn work<G: Gate>(&mut self, patience: u32, gate: &G) -> Worked
        requires { RunnerInvariant self.old }
        ensures kept { RunnerInvariant self.new }
        ensures grew { Grew self.old self.new }
        ensures ends { WorkEnds result patience self.new }
        ensures flushed { 0 < patience → IsFlushed self.new }
        ensures at_once { patience ≡ 0 → (result ≡ answers.Idle) × (self.new ≡ self.old) }
    {
        let mut quiet = 0;
        while quiet < patience {
            match self.turn(gate) {
                Turned::Moved => quiet = 0,
                Turned::Quiet => quiet += 1,
                Turned::Full => return Worked::Full,
                Turned::NoMemory => return Worked::NoMemory,
            }
        }
        Worked::Idle
    }

    /// Makes turns until one makes no move or a letter was sent, and flushes the outboxes.
    ///
    /// After a command it makes further ones without a look at the rings, a few at a time.
    pub fn work_until_sent<G: Gate>(&mut self, gate: &G) -> Worked
        requires { RunnerInvariant self.old }
        ensures kept { RunnerInvariant self.new }
        ensures grew { Grew self.old self.new }
        ensures ends { WorkEnds result 0 self.new }
        ensures flushed { result ≡ answers.Idle → IsFlushed self.new }
    {
        while self.reached == 0 {
            match self.find() {
                Found::Quiet => return Worked::Idle,
                Found::Full => return Worked::Full,
                Found::Move(choice) => {
                    if !self.move_and_act(choice, gate) {
                        return Worked::NoMemory;
                    }
                }
            }
        }
        self.flush();
        Worked::Idle
    }

    /// How many moves were made.
    pub fn moves(&self) -> u64
        ensures { result ≡ length self.now.log.entries }
    {
        self.log.len()
    }
}

// Moves without a look at the rings.
impl Parts {
    // Makes the move that was found, if there is memory for it, and says whether there was.
    //
    // After a command it makes further ones.
    fn move_and_act<G: Gate>(&mut self, choice: Choice, gate: &G) -> bool
        requires kept { RunnerInvariant self.old }
        requires chosen { next_choice self.old ≡ choice }
        requires could { CouldMove self.old }
        ensures kept { RunnerInvariant self.new }
        ensures grew { Grew self.old self.new }
        ensures longer { IsTrue result → length self.old.log.entries < length self.new.log.entries }
        ensures could { IsFalse result → CouldMove self.new }
    {
        if !self.make_found(choice, gate) {
            return false;
        }
        self.go_on(choice, gate);
        true
    }

    // Makes further commands after a command.
    fn go_on<G: Gate>(&mut self, made: Choice, gate: &G)
        requires { RunnerInvariant self.old }
        ensures kept { RunnerInvariant self.new }
        ensures grew { Grew self.old self.new }
    {
        if let Choice::Act(_) = made {
            self.act_on(gate);
        }
    }

    // Makes further commands, as long as no letter was sent: so many at most, and fewer where memory runs out.
    fn act_on<G: Gate>(&mut self, gate: &G)
        requires { RunnerInvariant self.old }
        ensures kept { RunnerInvariant self.new }
        ensures grew { Grew self.old self.new }
    {
        for _ in 0..ACTS_A_LOOK {
            if !self.act_once(gate) {
                return;
            }
        }
    }

    // Makes the command that is shown, where no letter was sent, there is one, the log has a place for it, and there is
    // memory, and says whether it did.
    fn act_once<G: Gate>(&mut self, gate: &G) -> bool
        requires { RunnerInvariant self.old }
        ensures kept { RunnerInvariant self.new }
        ensures grew { Grew self.old self.new }
        ensures moved { IsTrue result → MovedOne self.old self.new }
    {
        if self.reached != 0 {
            return false;
        }
        match choose(self) {
            Choice::Nothing => {
                self.idle = true;
                false
            }
            Choice::Act(client) if self.log.len() < self.limit => {
                self.make_found(Choice::Act(client), gate)
            }
            _ => false,
        }
    }
}
