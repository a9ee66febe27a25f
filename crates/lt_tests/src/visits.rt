// Stations in a pool, as workers share them.
ghost use Rattle.std.specs.Prelude.{◌≡◌, ◌<◌, [], length};

use crate::live::{LOCK, opened, poll, submit};
use crate::telling::{holds, same};
use lt_live::{Reply, Station, visit};
use lt_pool::{Badge, Pool};
use lt_runner::{Open, Turned};
use std::process::Abort;

// The desk is at node 0, so that the client's ask goes to the other node.
const TWO_NODES: &str = "nodes 2\n\
set s\n\
client a at 1\n";

// While the other badge has station 1, the first one visits it in vain.
fn visit_taken<R: Abort>(
    rt: &R,
    pool: &Pool<Station>,
    first: &mut Badge<Station>,
    other: &mut Badge<Station>,
)
    requires of { (first.old.pool ≡ pool.now) × (other.old.pool ≡ pool.now) }
    requires free { (first.old.claimed ≡ []) × (1 < length pool.now.firsts) }
    ensures first { first.new ≡ record first.old { refused = first.new.refused; history = first.new.history } }
    ensures other { other.new ≡ record other.old { history = other.new.history } }
{
    let station = pool.claim(other, 1).expect(rt, "the station");
    same(rt, visit(pool, first, 1, &Open), None);
    pool.give(other, 1, station);
}

// Visits both stations so often that a reply comes.
fn visit_both(pool: &Pool<Station>, badge: &mut Badge<Station>)
    requires { (badge.old.pool ≡ pool.now) × (badge.old.claimed ≡ []) × (1 < length pool.now.firsts) }
    ensures { badge.new ≡ record badge.old { refused = badge.new.refused; history = badge.new.history } }
{
    for _ in 0_u8..4 {
        visit(pool, badge, 0, &Open);
        visit(pool, badge, 1, &Open);
    }
}

// Another badge is split off the first one, and joined again.
fn visit_all<R: Abort>(rt: &R, pool: &Pool<Station>, first: &mut Badge<Station>)
    requires of { (first.old.pool ≡ pool.now) × (1 < length pool.now.firsts) }
    requires first { (first.old.number ≡ 0) × (first.old.claimed ≡ []) }
    requires alone { (first.old.splits ≡ 0) × (first.old.joined ≡ []) }
    ensures of { (first.new.pool ≡ pool.now) × (first.new.number ≡ 0) }
    ensures joined { (first.new.claimed ≡ []) × (length first.new.joined ≡ first.new.splits) }
{
    let mut other = pool.split(first);
    visit_taken(rt, pool, first, &mut other);
    pool.join(first, other);
    same(rt, visit(pool, first, 1, &Open), Some(Turned::Moved));
    visit_both(pool, first);
}

#[test]
fn workers_visit_stations(rt: HostRuntime) {
    let (stations, mut session) = opened(&rt, rt.alloc(), TWO_NODES);
    submit(&rt, &mut session, LOCK, Ok(()));
    holds(&rt, stations.len() == 2);
    let (pool, mut first) = Pool::new(rt.alloc(), stations).expect(&rt, "memory");
    visit_all(&rt, &pool, &mut first);
    poll(&rt, &mut session, Some(Reply::Granted));
    let stations = pool.close(first).ok().expect(&rt, "memory");
    same(&rt, stations.len(), 2);
}
