// What a worker does on its thread.
ghost use Rattle.std.specs.Prelude.{◌≡◌, ◌<◌, ◌≤◌, ◌+◌, ◌-◌, ◌*◌, length};
ghost use Rattle.lt_runner.specs.declared.turning.Worked.TheVariants as answers;
ghost use Rattle.lt_runner.specs.Kept.{Grew, IsFlushed, WorkEnds};
ghost use Rattle.lt_threads.specs.Workers.{IsFree};
ghost use Rattle.lt_threads.specs.Visits.{after_moves, most_idle, most_moved, HaveRoom, MadeVisit, FewRefused};

use crate::outlook::Outlook;
use crate::taking::take_letters;
use crate::visits::Visits;
use lt_pool::{Badge, Pool};
use lt_runner::{Gate, Runner, Worked};
use std::thread::yield_now;

/// A worker: what it claims runners with, where it looks next, and whether it found no memory for a move, which ends it.
#[derive(Drop)]
pub(crate) struct Worker {
    pub(crate) badge: Badge<Runner>,
    pub(crate) outlook: Outlook,
    pub(crate) short: bool,
}

// What came of a visit.
#[derive(Clone, Copy)]
struct Visit {
    moves: u64,
    // The nodes that letters went to, a bit each.
    reached: u64,
    // Whether a client of the node may be able to act; there may be letters to take either way.
    more: bool,
    worked: Worked,
}

impl Worker {
    /// Visits one node after the other until it has tried often enough, or memory ran out.
    pub(crate) fn run<G: Gate>(&mut self, pool: &Pool<Runner>, count: u8, patience: u32, gate: &G)
        requires free { IsFree pool.now self.old.badge }
        requires count { (count ≡ length pool.now.firsts) × (0 < count) }
        ensures free { IsFree pool.now self.new.badge }
        ensures few { self.new.outlook.visits.made ≤ (self.new.outlook.visits.moved + 1) * most_idle count patience }
        ensures moved { self.new.outlook.visits.moved ≤ most_moved count }
        ensures refused { FewRefused patience self.old self.new }
    {
        self.outlook.visits = Visits::none();
        'visits: while !self.short && !self.outlook.is_over(count, patience) {
            let node = self.outlook.next(count);
            self.visit(pool, node, gate);
        }
    }

    // Claims the node's runner, lets it work and gives it back; or another worker has it, which may wait for a processor.
    fn visit<G: Gate>(&mut self, pool: &Pool<Runner>, node: u8, gate: &G)
        requires free { IsFree pool.now self.old.badge }
        requires inside { node < length pool.now.firsts }
        requires room { HaveRoom self.old.outlook.visits }
        ensures free { IsFree pool.now self.new.badge }
        ensures visit { MadeVisit pool.now node self.old self.new }
    {
        let Ok(mut runner) = pool.claim(&mut self.badge, node) else {
            self.outlook.note_refusal(node);
            yield_now();
            return;
        };
        let senders = self.outlook.senders_of(node);
        let visit = work_on(&mut runner, senders, self.outlook.is_by_mail(), gate);
        pool.give(&mut self.badge, node, runner);
        self.note(node, visit);
    }

    // Notes what came of a visit.
    fn note(&mut self, node: u8, visit: Visit)
        requires { HaveRoom self.old.outlook.visits }
        ensures badge { self.new.badge ≡ self.old.badge }
        ensures visits { self.new.outlook.visits ≡ after_moves visit.moves self.old.outlook.visits }
    {
        self.outlook.note_claim(node);
        if visit.moves == 0 {
            self.outlook.note_no_move();
        } else {
            self.outlook
                .note_moves(node, visit.moves, visit.reached, visit.more);
        }
        match visit.worked {
            Worked::Idle => {}
            Worked::Full => self.outlook.note_full(node),
            Worked::NoMemory => self.short = true,
        }
    }
}

// Lets the runner work, which looks for letters of these nodes, and tells what came of it.
#[tactic(auto, using(crate::proofs::Taken::taking, crate::proofs::Taken::ends_later, crate::proofs::Taken::moves_seen))]
fn work_on<G: Gate>(runner: &mut Runner, senders: u64, by_mail: bool, gate: &G) -> Visit
    ensures grew { Grew runner.old runner.new }
    ensures moves { result.moves ≡ length runner.new.log.entries - length runner.old.log.entries }
    ensures ends { WorkEnds result.worked 0 runner.new }
    ensures flushed { result.worked ≡ answers.Idle → IsFlushed runner.new }
{
    runner.look_for(senders);
    let visit = work_counted(runner, by_mail, gate);
    runner.look_for(u64::MAX);
    visit
}

// Lets the runner work, and counts its moves.
fn work_counted<G: Gate>(runner: &mut Runner, by_mail: bool, gate: &G) -> Visit
    ensures grew { Grew runner.old runner.new }
    ensures moves { result.moves ≡ length runner.new.log.entries - length runner.old.log.entries }
    ensures ends { WorkEnds result.worked 0 runner.new }
    ensures flushed { result.worked ≡ answers.Idle → IsFlushed runner.new }
{
    let before = runner.moves();
    let (reached, worked) = work(runner, by_mail, gate);
    let moves = runner.moves().saturating_sub(before);
    Visit {
        moves,
        reached,
        more: !runner.rests(),
        worked,
    }
}

// Lets the runner work, and tells to which nodes it sent letters.
fn work<G: Gate>(runner: &mut Runner, by_mail: bool, gate: &G) -> (u64, Worked)
    ensures grew { Grew runner.old runner.new }
    ensures ends { WorkEnds result.1 0 runner.new }
    ensures flushed { result.1 ≡ answers.Idle → IsFlushed runner.new }
{
    let worked = make_moves(runner, by_mail, gate);
    (runner.reached(), worked)
}

// Lets the runner take letters until it finds none, or make any moves until it finds none or has sent a letter.
fn make_moves<G: Gate>(runner: &mut Runner, by_mail: bool, gate: &G) -> Worked
    ensures grew { Grew runner.old runner.new }
    ensures ends { WorkEnds result 0 runner.new }
    ensures flushed { result ≡ answers.Idle → IsFlushed runner.new }
{
    if by_mail {
        take_letters(runner, gate)
    } else {
        runner.work_until_sent(gate)
    }
}
