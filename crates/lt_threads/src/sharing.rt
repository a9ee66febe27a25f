// Workers that share the runners.
ghost use Rattle.std.specs.Prelude.{◌≡◌, ◌<◌, ◌≤◌, length, IfOk};
ghost use Rattle.lt_pool.specs.PoolData.{new_badge};
ghost use Rattle.lt_runner.specs.Kept.{Grew};
ghost use Rattle.lt_threads.specs.Meeting.{EachIs};
ghost use Rattle.lt_threads.specs.Workers.{IsFree, AreFree, LeadsPool};
ghost use Rattle.lt_threads.specs.Settled.{CrewWorked};
ghost use Rattle.lt_threads.specs.declared.sharing.TheConstants.{MAX_WORKERS};

use crate::outlook::{Outlook, most_workers};
use crate::settling::settle;
use crate::stacks::workers_with_room;
use crate::worker::Worker;
use lt_pool::{Badge, Pool};
use lt_runner::{Gate, Runner, Worked};
use std::alloc::{AllocError, Global};
use std::thread::{Threads, for_each_mut};

/// The greatest number of workers.
pub const MAX_WORKERS: u8 = 16;

/// Lets workers share the runners, each on a thread, and then lets each runner work once itself.
///
/// The runners come back in order. Without memory for the crew itself they are dropped. A worker that finds no memory for
/// a move ends; whether there is any is told by the caller's turn.
pub fn crew<R: Threads + Sync, G: Gate>(
    rt: &R,
    alloc: Global,
    runners: Vec<Runner>,
    workers: u8,
    patience: u32,
    gate: &G,
) -> Result<(Vec<Runner>, Worked), AllocError>
    requires runners { (0 < length runners.items) × (length runners.items ≤ 64) }
    requires workers { (0 < workers) × (workers ≤ MAX_WORKERS) }
    ensures grew { IfOk result (λ ended. EachIs Grew runners.items ended.0.items) }
    ensures ends { IfOk result (λ ended. CrewWorked ended.1 patience ended.0.items) }
{
    let mut runners = share(rt, alloc, runners, workers, patience, gate)?;
    let worked = settle(&mut runners, patience, gate);
    Ok((runners, worked))
}

// Lets workers share the runners.
fn share<R: Threads + Sync, G: Gate>(
    rt: &R,
    alloc: Global,
    runners: Vec<Runner>,
    workers: u8,
    patience: u32,
    gate: &G,
) -> Result<Vec<Runner>, AllocError>
    requires runners { (0 < length runners.items) × (length runners.items ≤ 64) }
    requires workers { (0 < workers) × (workers ≤ MAX_WORKERS) }
    ensures { IfOk result (λ ended. EachIs Grew runners.items ended.items) }
{
    let count = runners.len() as u8;
    let (pool, mut first) = Pool::new(alloc, runners)?;
    let workers = workers_for(alloc, workers, count);
    let hands = engage(alloc, &pool, &mut first, workers)?;
    work_together(rt, &pool, &mut first, hands, count, patience, gate);
    match pool.close(first) {
        Ok(runners) => Ok(runners),
        Err(_) => Err(AllocError),
    }
}

// How many workers share so many nodes.
fn workers_for(alloc: Global, workers: u8, count: u8) -> u8
    requires { (0 < workers) × (0 < count) }
    ensures { result ≤ workers }
{
    let most = workers.min(count).min(most_workers(count));
    workers_with_room(alloc, most)
}

// Runs the workers, and takes their badges back.
fn work_together<R: Threads + Sync, G: Gate>(
    rt: &R,
    pool: &Pool<Runner>,
    first: &mut Badge<Runner>,
    mut hands: Vec<Worker>,
    count: u8,
    patience: u32,
    gate: &G,
)
    requires free { AreFree pool.now hands.items }
    requires first { LeadsPool pool.now (length hands.items) first.old }
    requires count { (count ≡ length pool.now.firsts) × (0 < count) }
    ensures { LeadsPool pool.now 0 first.new }
{
    work_all(rt, pool, hands.as_mut_slice(), count, patience, gate);
    dismiss(pool, first, hands);
}

// So many workers, each with a badge of its own, and each begins at a node of its own.
fn engage(
    alloc: Global,
    pool: &Pool<Runner>,
    first: &mut Badge<Runner>,
    workers: u8,
) -> Result<Vec<Worker>, AllocError>
    requires { (first.old ≡ new_badge pool.now 0) × (workers ≤ MAX_WORKERS) }
    ensures count { IfOk result (λ hands. length hands.items ≡ workers) }
    ensures free { IfOk result (λ hands. AreFree pool.now hands.items) }
    ensures first { IfOk result (λ hands. LeadsPool pool.now (length hands.items) first.new) }
{
    let mut hands = Vec::with_capacity(alloc, usize::from(workers))?;
    for place in 0..workers {
        let badge = pool.split(first);
        let outlook = Outlook::new(place);
        hands.push_reserved(Worker {
            badge,
            outlook,
            short: false,
        });
    }
    Ok(hands)
}

// Runs each worker on a thread. Where no thread can be made the caller's works.
fn work_all<R: Threads + Sync, G: Gate>(
    rt: &R,
    pool: &Pool<Runner>,
    hands: &mut [Worker],
    count: u8,
    patience: u32,
    gate: &G,
)
    requires free { AreFree pool.now hands.old }
    requires count { (count ≡ length pool.now.firsts) × (0 < count) }
    ensures free { AreFree pool.now hands.new }
    ensures count { length hands.new ≡ length hands.old }
{
    if hands.is_empty() {
        return;
    }
    let threads = hands.len();
    for_each_mut(
        rt,
        hands,
        threads,
        &|_: usize, hand: &mut Worker|
            requires { IsFree pool.now hand.old.badge × (count ≡ length pool.now.firsts) × (0 < count) }
            ensures { IsFree pool.entry.now hand.new.badge }
        { hand.run(pool, count, patience, gate) },
    );
}

// Joins all badges into the first one.
fn dismiss(pool: &Pool<Runner>, first: &mut Badge<Runner>, mut hands: Vec<Worker>)
    requires free { AreFree pool.now hands.items }
    requires first { LeadsPool pool.now (length hands.items) first.old }
    ensures { LeadsPool pool.now 0 first.new }
{
    while let Some(hand) = hands.pop() {
        let Worker { badge, .. } = hand;
        pool.join(first, badge);
    }
}
