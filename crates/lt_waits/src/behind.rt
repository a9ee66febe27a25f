ghost use Rattle.std.specs.Prelude.{◌≡◌, ◌<◌, ◌++◌, All, IfOk, IfSome, OnOk};
ghost use Rattle.lt_spec.specs.Rings.{has_come};
ghost use Rattle.lt_waits.specs.Edges.{IsEdgeOf};
ghost use Rattle.lt_waits.specs.Serves.{graph_of};
ghost use Rattle.lt_waits.specs.Behind.{behind, edge_to, edges_to, idle, nearest, all_but};

use crate::edge::Edge;
use crate::graph::WaitGraph;
use crate::rings::next_among;
use crate::shortest::{not_waiting, waiting};
use std::alloc::{AllocError, Global};

/// The clients that wait for one of these, those that wait for one of them, and so on; each with the first one for
/// which it waits in the round before, by a lock if it can be.
pub(crate) fn behind(
    alloc: Global,
    locks: &WaitGraph,
    graph: &WaitGraph,
    clients: &[u16],
) -> Result<Vec<Edge>, AllocError>
    requires same { locks.now.clients ≡ graph.now.clients }
    requires clients { All (λ c. c < graph.now.clients) clients.now }
    ensures edges { IfOk result
        (λ edges. edges.items ≡ behind graph.now.clients (graph_of locks.now) (graph_of graph.now) clients.now) }
    ensures within { IfOk result (λ edges. All (IsEdgeOf graph.now.clients) edges.items) }
{
    let mut edges = Vec::new(alloc);
    let mut layer: Vec<u16> = clients.to_vec(alloc)?;
    let mut left = all_but(alloc, graph, clients)?;
    for _round in 0..graph.clients() {
        push_edges_to(&mut edges, locks, graph, &layer, &left)?;
        let next = waiting(alloc, graph, &left, &layer)?;
        left = not_waiting(alloc, graph, &left, &layer)?;
        layer = next;
    }
    Ok(edges)
}

// Adds each of these clients that waits for one of the others, with the nearest of them.
fn push_edges_to(
    edges: &mut Vec<Edge>,
    locks: &WaitGraph,
    graph: &WaitGraph,
    others: &[u16],
    clients: &[u16],
) -> Result<(), AllocError>
    requires same { locks.now.clients ≡ graph.now.clients }
    requires others { All (λ c. c < graph.now.clients) others.now }
    requires clients { All (λ c. c < graph.now.clients) clients.now }
    requires within { All (IsEdgeOf graph.now.clients) edges.old.items }
    ensures edges { OnOk result (edges.new.items
        ≡ edges.old.items ++ edges_to (graph_of locks.now) (graph_of graph.now) others.now clients.now) }
    ensures within { OnOk result (All (IsEdgeOf graph.now.clients) edges.new.items) }
{
    for client in clients {
        push_edge_to(edges, locks, graph, others, *client)?;
    }
    Ok(())
}

// Adds the client with the nearest of the others, if it waits for one.
fn push_edge_to(
    edges: &mut Vec<Edge>,
    locks: &WaitGraph,
    graph: &WaitGraph,
    others: &[u16],
    client: u16,
) -> Result<(), AllocError>
    requires same { locks.now.clients ≡ graph.now.clients }
    requires others { All (λ c. c < graph.now.clients) others.now }
    requires client { client < graph.now.clients }
    requires within { All (IsEdgeOf graph.now.clients) edges.old.items }
    ensures edges { OnOk result (edges.new.items
        ≡ edges.old.items ++ edge_to client (nearest (graph_of locks.now) (graph_of graph.now) others.now client)) }
    ensures within { OnOk result (All (IsEdgeOf graph.now.clients) edges.new.items) }
{
    if let Some(other) = nearest(locks, graph, others, client) {
        edges.push(Edge { client, other })?;
    }
    Ok(())
}

// The first of the others for which the client waits by a lock, or else the first for which it waits.
fn nearest(locks: &WaitGraph, graph: &WaitGraph, others: &[u16], client: u16) -> Option<u16>
    requires same { locks.now.clients ≡ graph.now.clients }
    requires others { All (λ c. c < graph.now.clients) others.now }
    requires client { client < graph.now.clients }
    ensures nearest { result ≡ nearest (graph_of locks.now) (graph_of graph.now) others.now client }
    ensures within { IfSome result (λ other. other < graph.now.clients) }
{
    match next_among(locks, others, client) {
        Some(other) => Some(other),
        None => next_among(graph, others, client),
    }
}

// The clients that aren't these.
fn all_but(alloc: Global, graph: &WaitGraph, clients: &[u16]) -> Result<Vec<u16>, AllocError>
    ensures others { IfOk result (λ others. others.items ≡ all_but graph.now.clients clients.now) }
    ensures within { IfOk result (λ others. All (λ c. c < graph.now.clients) others.items) }
{
    let others = (0..graph.clients()).filter(|client| !has_come(clients, *client));
    others.collect(alloc)
}

// Whether the client is one of these.
fn has_come(clients: &[u16], client: u16) -> bool
    ensures { result ≡ has_come clients.now client }
{
    clients.iter().any(|other| client == *other)
}

/// The clients that wait for nobody.
pub(crate) fn idle(alloc: Global, graph: &WaitGraph) -> Result<Vec<u16>, AllocError>
    ensures idle { IfOk result (λ found. found.items ≡ idle graph.now.clients (graph_of graph.now)) }
    ensures within { IfOk result (λ found. All (λ c. c < graph.now.clients) found.items) }
{
    let idle = (0..graph.clients()).filter(|client| !graph.waits_for_some(*client));
    idle.collect(alloc)
}
