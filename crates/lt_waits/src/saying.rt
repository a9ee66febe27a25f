ghost use Rattle.std.specs.Prelude.{◌≡◌, ◌<◌, ◌++◌, ◌↔◌, ℕ, List, Option, All, IfOk, IfSome, IsTrue, OnOk, Some, None, codes, is_some, length};
ghost use Rattle.lt_waits.specs.Edges.{IsEdgeOf};
ghost use Rattle.lt_waits.specs.Serves.{graph_of};
ghost use Rattle.lt_waits.specs.Shortest.{HasRing, IsRingNamed};
ghost use Rattle.lt_waits.specs.Why.{NamesRing, behind_text, items_of, why_of, why_text};

use crate::asking::wait_graph;
use crate::behind::{behind, idle};
use crate::edge::{Edge, ring_edges};
use crate::edge_lines::{push_edges, push_void_edges};
use crate::graph::WaitGraph;
use crate::locking::lock_graph;
use crate::tallied::Tallied;
use crate::voids::void_pairs;
use lt_script::Script;
use lt_world::World;
use std::alloc::{AllocError, Global};

/// Why clients wait in a world of the script, in words: a ring, if some clients wait in one, and who waits behind it.
/// A ring by locks alone comes before any other one, and of these a shortest one is named. At the end comes who waits behind
/// void asks.
pub fn why(alloc: Global, script: &Script, world: &World) -> Result<Vec<u8>, AllocError>
    requires { world.now.script ≡ script.now }
    ensures { IfOk result (λ text. (ring : Option (List ℕ)) × NamesRing script.now world.now.run ring
        × (text.items ≡ why_text script.now world.now.run ring)) }
{
    let graph = wait_graph(alloc, script, world)?;
    let tallied = Tallied::new(alloc, script, world.run())?;
    let locks = lock_graph(alloc, &tallied, &graph)?;
    let found = named_ring(alloc, &locks, &graph)?;
    let voids = void_pairs(alloc, script, world)?;
    let mut text = text_of(alloc, &tallied, &locks, &graph, found)?;
    push_void_edges(&mut text, &tallied, &voids)?;
    Ok(text)
}

// The shortest ring by locks alone, or else the shortest of all.
fn named_ring(
    alloc: Global,
    locks: &WaitGraph,
    graph: &WaitGraph,
) -> Result<Option<Vec<u16>>, AllocError>
    requires same { locks.now.clients ≡ graph.now.clients }
    requires part { (c d : ℕ) → c < graph.now.clients → d < graph.now.clients
        → IsTrue (graph_of locks.now c d) → IsTrue (graph_of graph.now c d) }
    ensures some { IfOk result (λ found. IsTrue (is_some found) ↔ HasRing graph.now.clients (graph_of graph.now)) }
    ensures named { IfOk result (λ found. IfSome found
        (λ ring. IsRingNamed graph.now.clients (graph_of locks.now) (graph_of graph.now) ring.items)) }
{
    let by_locks = locks.shortest_ring(alloc)?;
    if by_locks.is_some() {
        return Ok(by_locks);
    }
    let found = graph.shortest_ring(alloc)?;
    Ok(found)
}

// The text of what was found.
fn text_of(
    alloc: Global,
    tallied: &Tallied<'_>,
    locks: &WaitGraph,
    graph: &WaitGraph,
    found: Option<Vec<u16>>,
) -> Result<Vec<u8>, AllocError>
    requires same { locks.now.clients ≡ graph.now.clients }
    requires clients { graph.now.clients ≡ length tallied.now.script.clients }
    requires ring { IfSome found (λ ring. All (λ c. c < graph.now.clients) ring.items) }
    ensures { IfOk result (λ text. text.items
        ≡ why_of tallied.now.script tallied.now.lines (graph_of locks.now) (graph_of graph.now) (items_of found)) }
{
    match found {
        Some(ring) => ring_text(alloc, tallied, locks, graph, &ring),
        None => no_ring_text(alloc, tallied, locks, graph),
    }
}

// The text that names this ring.
fn ring_text(
    alloc: Global,
    tallied: &Tallied<'_>,
    locks: &WaitGraph,
    graph: &WaitGraph,
    ring: &[u16],
) -> Result<Vec<u8>, AllocError>
    requires same { locks.now.clients ≡ graph.now.clients }
    requires clients { graph.now.clients ≡ length tallied.now.script.clients }
    requires ring { All (λ c. c < graph.now.clients) ring.now }
    ensures { IfOk result (λ text. text.items
        ≡ why_of tallied.now.script tallied.now.lines (graph_of locks.now) (graph_of graph.now) (Some ring.now)) }
{
    let edges = ring_edges(alloc, ring)?;
    let behind = behind(alloc, locks, graph, ring)?;
    let mut out = Vec::new(alloc);
    out.extend_from_slice(b"ring\n")?;
    push_edges(alloc, &mut out, tallied, &edges)?;
    push_behind(alloc, &mut out, tallied, &behind)?;
    Ok(out)
}

// Writes the lines of those who wait behind a ring, if some do.
fn push_behind(
    alloc: Global,
    out: &mut Vec<u8>,
    tallied: &Tallied<'_>,
    edges: &[Edge],
) -> Result<(), AllocError>
    requires { All (IsEdgeOf (length tallied.now.script.clients)) edges.now }
    ensures { OnOk result
        (out.new.items ≡ out.old.items ++ behind_text tallied.now.script tallied.now.lines edges.now) }
{
    if edges.is_empty() {
        return Ok(());
    }
    push_title(out)?;
    push_edges(alloc, out, tallied, edges)
}

// Writes the line before those of who waits behind a ring.
fn push_title(out: &mut Vec<u8>) -> Result<(), AllocError>
    ensures { OnOk result (out.new.items ≡ out.old.items ++ codes "behind the ring\n") }
{
    out.extend_from_slice(b"behind the ring\n")
}

// The text that says that there is no ring, and why each client waits.
fn no_ring_text(
    alloc: Global,
    tallied: &Tallied<'_>,
    locks: &WaitGraph,
    graph: &WaitGraph,
) -> Result<Vec<u8>, AllocError>
    requires same { locks.now.clients ≡ graph.now.clients }
    requires clients { graph.now.clients ≡ length tallied.now.script.clients }
    ensures { IfOk result (λ text. text.items
        ≡ why_of tallied.now.script tallied.now.lines (graph_of locks.now) (graph_of graph.now) None) }
{
    let idle = idle(alloc, graph)?;
    let edges = behind(alloc, locks, graph, &idle)?;
    let mut out = Vec::new(alloc);
    out.extend_from_slice(b"no ring\n")?;
    push_edges(alloc, &mut out, tallied, &edges)?;
    Ok(out)
}
