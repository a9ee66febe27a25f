ghost use Rattle.std.specs.Prelude.{◌≡◌, ◌<◌, ◌++◌, map, length, IfOk, OnOk};
ghost use Rattle.lt_spec.specs.Rings.{numbers_below};
ghost use Rattle.lt_waits.specs.Serves.{Tells, graph_of};
ghost use Rattle.lt_waits.specs.Reasons.{by_lock};

use crate::graph::WaitGraph;
use crate::tallied::Tallied;
use std::alloc::{AllocError, Global};

/// The graph with those of its edges alone in which the other one holds a lock that conflicts with what the client
/// wants.
pub(crate) fn lock_graph(
    alloc: Global,
    tallied: &Tallied<'_>,
    graph: &WaitGraph,
) -> Result<WaitGraph, AllocError>
    requires { graph.now.clients ≡ length tallied.now.script.clients }
    ensures clients { IfOk result (λ locks. locks.clients ≡ graph.now.clients) }
    ensures told { IfOk result
        (λ locks. Tells locks (by_lock tallied.now.script tallied.now.lines (graph_of graph.now))) }
{
    let mut pairs = Vec::new(alloc);
    for client in 0..graph.clients() {
        push_row(&mut pairs, tallied, graph, client)?;
    }
    Ok(WaitGraph::new(graph.clients(), pairs))
}

// Adds the marks of the client with each client.
fn push_row(
    pairs: &mut Vec<bool>,
    tallied: &Tallied<'_>,
    graph: &WaitGraph,
    client: u16,
) -> Result<(), AllocError>
    requires clients { graph.now.clients ≡ length tallied.now.script.clients }
    requires client { client < graph.now.clients }
    ensures { OnOk result (pairs.new.items ≡ pairs.old.items
        ++ map (by_lock tallied.now.script tallied.now.lines (graph_of graph.now) client) (numbers_below graph.now.clients)) }
{
    for other in 0..graph.clients() {
        pairs.push(waits_by_lock(tallied, graph, client, other))?;
    }
    Ok(())
}

// Whether the client waits for the other one, which holds a lock that conflicts with what the client wants.
fn waits_by_lock(tallied: &Tallied<'_>, graph: &WaitGraph, client: u16, other: u16) -> bool
    requires clients { graph.now.clients ≡ length tallied.now.script.clients }
    requires client { client < graph.now.clients }
    requires other { other < graph.now.clients }
    ensures { result ≡ by_lock tallied.now.script tallied.now.lines (graph_of graph.now) client other }
{
    graph.waits(client, other) && tallied.is_barred(client, other)
}
