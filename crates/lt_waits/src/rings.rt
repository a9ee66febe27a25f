ghost use Rattle.std.specs.Prelude.{◌≡◌, ◌<◌, ◌≤◌, ◌==◌, ℕ, true, All, IfOk, IfSome, drop, length, position};
ghost use Rattle.std.specs.List.{list_any, find};
ghost use Rattle.lt_spec.specs.Rings.{still_waiting, ring_set, next_among, ring_of, walk_end};
ghost use Rattle.lt_waits.specs.Serves.{graph_of};

use crate::graph::WaitGraph;
use std::alloc::{AllocError, Global};

/// The clients that remain when those that wait for none that remains are taken away, again and again.
pub(crate) fn ring_set(alloc: Global, graph: &WaitGraph) -> Result<Vec<u16>, AllocError>
    ensures members { IfOk result (λ members. members.items ≡ ring_set graph.now.clients (graph_of graph.now)) }
    ensures within { IfOk result (λ members. All (λ c. c < graph.now.clients) members.items) }
{
    let mut left: Vec<u16> = (0..graph.clients()).collect(alloc)?;
    for _round in 0..graph.clients() {
        let after = still_waiting(alloc, graph, &left)?;
        if after.len() == left.len() {
            return Ok(left);
        }
        left = after;
    }
    Ok(left)
}

// Those of these clients that wait for one of them.
fn still_waiting(alloc: Global, graph: &WaitGraph, clients: &[u16]) -> Result<Vec<u16>, AllocError>
    requires { All (λ c. c < graph.now.clients) clients.now }
    ensures left { IfOk result (λ left. left.items ≡ still_waiting (graph_of graph.now) clients.now) }
    ensures within { IfOk result (λ left. All (λ c. c < graph.now.clients) left.items) }
{
    let waiting = clients
        .iter()
        .copied()
        .filter(|client| waits_for_one(graph, clients, *client));
    waiting.collect(alloc)
}

/// Whether the client waits for one of these.
pub(crate) fn waits_for_one(graph: &WaitGraph, clients: &[u16], client: u16) -> bool
    requires client { client < graph.now.clients }
    requires clients { All (λ c. c < graph.now.clients) clients.now }
    ensures { result ≡ list_any (graph_of graph.now client) clients.now }
{
    clients.iter().any(|other| graph.waits(client, *other))
}

/// The ring in which the walk from the first of these clients ends, where each goes on to the least of them for which
/// it waits; empty where the walk comes to one that waits for none of them.
pub(crate) fn ring_of(
    alloc: Global,
    graph: &WaitGraph,
    clients: &[u16],
) -> Result<Vec<u16>, AllocError>
    requires { All (λ c. c < graph.now.clients) clients.now }
    ensures ring { IfOk result (λ ring. ring.items ≡ ring_of graph.now.clients (graph_of graph.now) clients.now) }
    ensures within { IfOk result (λ ring. All (λ c. c < graph.now.clients) ring.items) }
{
    let mut walk = Vec::new(alloc);
    let mut next = first_of(clients);
    while let Some(client) = next {
        if let Some(first) = first_coming(&walk, client) {
            return part_from(alloc, &walk, first);
        }
        walk.push(client)?;
        next = next_among(graph, clients, client);
    }
    Ok(Vec::new(alloc))
}

// The first of these clients, if there is one.
fn first_of(clients: &[u16]) -> Option<u16>
    ensures first { result ≡ find (λ c. true) clients.now }
    ensures within { (n : ℕ) → All (λ c. c < n) clients.now → IfSome result (λ c. c < n) }
{
    clients.first().copied()
}

/// The least of these clients for which the client waits, if it waits for one.
pub(crate) fn next_among(graph: &WaitGraph, clients: &[u16], client: u16) -> Option<u16>
    requires client { client < graph.now.clients }
    requires clients { All (λ c. c < graph.now.clients) clients.now }
    ensures next { result ≡ next_among (graph_of graph.now) clients.now client }
    ensures within { IfSome result (λ other. other < graph.now.clients) }
{
    clients
        .iter()
        .copied()
        .find(|other| graph.waits(client, *other))
}

// The place on the walk to which the client came first.
fn first_coming(walk: &[u16], client: u16) -> Option<usize>
    ensures place { result ≡ position (λ c. c == client) walk.now }
    ensures within { IfSome result (λ place. place < length walk.now) }
{
    walk.iter().position(|other| *other == client)
}

// The walk from this place on.
fn part_from(alloc: Global, walk: &[u16], first: usize) -> Result<Vec<u16>, AllocError>
    requires { first ≤ length walk.now }
    ensures part { IfOk result (λ part. part.items ≡ drop first walk.now) }
    ensures within { (n : ℕ) → All (λ c. c < n) walk.now → IfOk result (λ part. All (λ c. c < n) part.items) }
{
    walk[first..].to_vec(alloc)
}

/// The client at which the walk from this one ends, where each goes on to the least client for which it waits. A walk
/// that comes into a ring ends after as many steps as there are clients.
pub(crate) fn walk_end(graph: &WaitGraph, client: u16) -> u16
    requires { client < graph.now.clients }
    ensures end { result ≡ walk_end graph.now.clients (graph_of graph.now) client }
    ensures within { result < graph.now.clients }
{
    let mut last = client;
    for _step in 0..graph.clients() {
        let Some(next) = graph.next(last) else {
            return last;
        };
        last = next;
    }
    last
}
