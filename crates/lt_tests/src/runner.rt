ghost use Rattle.std.specs.Prelude.{◌<◌, ◌≤◌, IfOk};
ghost use Rattle.lt_spec.specs.declared.moves.TheConstants.{MAX_MOVES_OF_SERVICE};
ghost use Rattle.lt_runner.specs.Kept.{AreBeside};

use crate::gates::Passes;
use crate::telling::{holds, same};
use crate::threads::THREE_READERS;
use crate::together::{Counter, read_text};
use lt_mail::open;
use lt_runner::{Gate, Runner, Turned, Worked, all_at_once};
use lt_script::Script;
use lt_threads::start_crew;
use std::alloc::{AllocError, Global};
use std::process::Abort;
use std::sync::atomic::{AtomicU64, Ordering};
use std::thread::{Threads, join_mut};

// The second client waits for the first one.
const ONE_NODE: &str = "nodes 1\n\
set s\n\
client a at 0\n\
client b at 0\n\
a lock s write\n\
b lock s write\n";

// The client's ask goes to the other node, and the token comes back.
const TWO_NODES: &str = "nodes 2\n\
set s\n\
client a at 1\n\
a lock s write\n";

const NO_COMMANDS: &str = "nodes 2\n\
set s\n\
client a at 1\n";

// Node 0 has a move to make after its first one, and node 1 hasn't.
const TWO_WRITERS: &str = "nodes 2\n\
set s\n\
client a at 1\n\
client b at 0\n\
client c at 0\n\
a lock s write\n\
b lock s write\n\
c lock s write\n";

// Each client of node 1 asks the other node for its lock.
const TWO_LETTERS: &str = "nodes 2\n\
set s\n\
set t\n\
client a at 1\n\
client b at 0\n\
client c at 1\n\
a lock s write\n\
b lock s write\n\
c lock t write\n";

// The runner of the one node.
fn one_runner(alloc: Global, script: &Script, limit: u64) -> Result<Runner, AllocError>
    requires { (0 < limit) × (limit ≤ MAX_MOVES_OF_SERVICE) }
{
    let mut mails = open(alloc, script.nodes(), 1)?;
    let mail = mails.remove(0);
    Runner::new(alloc, script, 0, mail, limit)
}

// The node may make so many moves, has patience for one turn without a move, and passes its gate at each move.
fn works<R: Abort>(rt: &R, alloc: Global, limit: u64, ends: Worked, moves: u64)
    requires { (0 < limit) × (limit ≤ MAX_MOVES_OF_SERVICE) }
{
    let script = read_text(rt, alloc, ONE_NODE);
    let mut runner = one_runner(alloc, &script, limit).expect(rt, "memory");
    let gate = Counter::new();
    same(rt, runner.work(1, &gate), ends);
    same(rt, runner.moves(), moves);
    same(rt, gate.count(), moves);
}

#[test]
fn work_ends(rt: HostRuntime) {
    works(&rt, rt.alloc(), 1_000, Worked::Idle, 2);
    works(&rt, rt.alloc(), 1, Worked::Full, 1);
}

// The runners of nodes 0 and 1.
fn two_runners(alloc: Global, script: &Script, limit: u64) -> Result<(Runner, Runner), AllocError>
    requires nodes { 1 < script.now.nodes }
    requires limit { (0 < limit) × (limit ≤ MAX_MOVES_OF_SERVICE) }
    ensures { IfOk result (λ runners. AreBeside runners.1 runners.0) }
{
    let mut mails = open(alloc, script.nodes(), 4)?;
    let mail = mails.remove(0);
    let first = Runner::new(alloc, script, 0, mail, limit)?;
    let mail = mails.remove(0);
    let second = Runner::new(alloc, script, 1, mail, limit)?;
    Ok((first, second))
}

// The second runner makes a turn, and both look at the ring between them.
#[tactic(auto, using(lt_runner::proofs::Fetched::beside_later))]
fn turn_and_meet(first: &mut Runner, second: &mut Runner, gate: &Counter) -> Turned
    requires { AreBeside second.old first.old }
{
    let turned = second.turn(gate);
    second.meet(first);
    turned
}

#[test]
fn a_letter_is_met_and_fetched(rt: HostRuntime) {
    let script = read_text(&rt, rt.alloc(), TWO_NODES);
    holds(&rt, script.nodes() == 2);
    let (mut first, mut second) = two_runners(rt.alloc(), &script, 10).expect(&rt, "memory");
    let gate = Counter::new();
    let turned = turn_and_meet(&mut first, &mut second, &gate);
    same(&rt, turned, Turned::Moved);
    holds(&rt, second.waits(0));
    holds(&rt, !first.has_move());
    first.fetch();
    holds(&rt, first.has_move());
}

#[test]
fn all_work_at_once(rt: HostRuntime) {
    let script = read_text(&rt, rt.alloc(), TWO_NODES);
    holds(&rt, script.nodes() == 2);
    let (first, second) = two_runners(rt.alloc(), &script, 10).expect(&rt, "memory");
    let mut runners = vec![in rt.alloc(); first, second].expect(&rt, "memory");
    let gate = Counter::new();
    for _ in 0..4 {
        let ended = all_at_once(&rt, runners.as_mut_slice(), 4, &gate);
        same(&rt, ended, Worked::Idle);
    }
    same(&rt, gate.count(), 3);
}

// So the runners end that have this patience, and make no move.
fn rest_at_once<R: Abort + Threads + Sync>(rt: &R, alloc: Global, text: &str, patience: u32) {
    let script = read_text(rt, alloc, text);
    let mut runners = start_crew(alloc, &script, 4, 10).expect(rt, "memory");
    let gate = Counter::new();
    same(
        rt,
        all_at_once(rt, runners.as_mut_slice(), patience, &gate),
        Worked::Idle,
    );
    for runner in &runners {
        same(rt, runner.moves(), 0);
    }
}

#[test]
fn none_works_without_patience(rt: HostRuntime) {
    rest_at_once(&rt, rt.alloc(), THREE_READERS, 0);
}

#[test]
fn none_works_without_commands(rt: HostRuntime) {
    rest_at_once(&rt, rt.alloc(), NO_COMMANDS, 3);
}

#[test]
fn one_of_all_is_full(rt: HostRuntime) {
    let script = read_text(&rt, rt.alloc(), TWO_WRITERS);
    holds(&rt, script.nodes() == 2);
    let (first, second) = two_runners(rt.alloc(), &script, 1).expect(&rt, "memory");
    let mut runners = vec![in rt.alloc(); first, second].expect(&rt, "memory");
    let gate = Counter::new();
    let ended = all_at_once(&rt, runners.as_mut_slice(), 1, &gate);
    same(&rt, ended, Worked::Full);
    same(&rt, gate.count(), 2);
}

// Node 0 is at work with the greatest patience, and finds no move after its first one until node 1 sends its letters.
#[derive(Drop)]
struct Late {
    passes: Passes,
}

impl Gate for Late {
    fn pass(&self, node: u8) {
        let me = usize::from(node);
        if me < 2 {
            self.passes.is_first(me);
        }
    }
}

impl Late {
    // Two letters go to node 0, long after its first move.
    fn send_late(&self, second: &mut Runner) {
        self.passes.wait(1, 0, 1);
        let spent = AtomicU64::new(0);
        for _ in 0..1_000_000 {
            spent.fetch_add(1, Ordering::SeqCst);
        }
        second.turn(self);
        second.turn(self);
        second.turn(self);
    }
}

fn work_beside<R: Threads>(rt: &R, first: &mut Runner, second: &mut Runner, gate: &Late) -> Worked {
    let (worked, ()) = join_mut(
        rt,
        &mut || first.work(u32::MAX, gate),
        &mut || gate.send_late(second),
    );
    worked
}

// No clause says how many turns without a move `work` makes; those between the first move and the letters were many.
#[test]
fn work_has_patience(rt: HostRuntime) {
    let script = read_text(&rt, rt.alloc(), TWO_LETTERS);
    holds(&rt, script.nodes() == 2);
    let (mut first, mut second) = two_runners(rt.alloc(), &script, 2).expect(&rt, "memory");
    let gate = Late {
        passes: Passes::new(0),
    };
    let worked = work_beside(&rt, &mut first, &mut second, &gate);
    same(&rt, worked, Worked::Full);
    same(&rt, first.moves(), 2);
    same(&rt, gate.passes.count(0), 2);
}
