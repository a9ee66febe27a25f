ghost use Rattle.std.specs.Prelude.{◌≡◌, ◌<◌, ◌≤◌, ◌+◌, ◌↔◌, ◌∷◌, ℕ, List, All, IfOk, IfSome, IsTrue, is_some, length};
ghost use Rattle.lt_spec.specs.Rings.{Graph, AreBelow, IsRing, numbers_below};
ghost use Rattle.lt_waits.specs.Serves.{graph_of};
ghost use Rattle.lt_waits.specs.Search.{HasSteps, steps_of};
ghost use Rattle.lt_waits.specs.Shortest.{HasRing, IsRingOf, IsShortest, waiting_for, not_waiting_for};

use crate::graph::WaitGraph;
use crate::rings::waits_for_one;
use crate::search::{Search, steps_to};
use crate::waiters::Waiters;
use std::alloc::{AllocError, Global};

// A ring of few clients.
impl WaitGraph {
    /// A ring of clients of which no ring has fewer, if some wait in a ring: each waits for the next one, and the last
    /// one for the first.
    pub fn shortest_ring(&self, alloc: Global) -> Result<Option<Vec<u16>>, AllocError>
        ensures found { IfOk result (λ found. IsTrue (is_some found) ↔ HasRing self.now.clients (graph_of self.now)) }
        ensures ring { IfOk result (λ found. IfSome found (λ ring. IsRingOf self.now.clients
            (graph_of self.now) ring.items)) }
        ensures shortest { IfOk result (λ found. IfSome found (λ ring. IsShortest self.now.clients
            (graph_of self.now) ring.items)) }
    {
        let waiters = Waiters::new(alloc, self)?;
        let mut shortest = None;
        for client in 0..self.clients() {
            let ring = ring_through(alloc, &waiters, client)?;
            shortest = shorter(shortest, ring);
        }
        Ok(shortest)
    }
}

// The shorter one of two rings, if there are two.
fn shorter(first: Option<Vec<u16>>, second: Option<Vec<u16>>) -> Option<Vec<u16>>
    ensures one { (n : ℕ) (graph : Graph) → IfSome first (λ ring. IsRingOf n graph ring.items)
        → IfSome second (λ ring. IsRingOf n graph ring.items)
        → IfSome result (λ ring. IsRingOf n graph ring.items) }
    ensures first { (k : ℕ) → IsTrue (is_some first) → IfSome first (λ ring. length ring.items ≤ k)
        → IsTrue (is_some result) × IfSome result (λ ring. length ring.items ≤ k) }
    ensures second { (k : ℕ) → IsTrue (is_some second) → IfSome second (λ ring. length ring.items ≤ k)
        → IsTrue (is_some result) × IfSome result (λ ring. length ring.items ≤ k) }
{
    match (first, second) {
        (Some(one), Some(other)) => {
            if other.len() < one.len() {
                Some(other)
            } else {
                Some(one)
            }
        }
        (Some(one), None) => Some(one),
        (None, other) => other,
    }
}

// A ring that begins with this client, of which no such ring has fewer clients.
fn ring_through(
    alloc: Global,
    waiters: &Waiters<'_>,
    start: u16,
) -> Result<Option<Vec<u16>>, AllocError>
    requires { start < waiters.now.clients }
    ensures ring { IfOk result (λ found. IfSome found (λ ring. IsRingOf waiters.now.clients
        (graph_of waiters.now) ring.items)) }
    ensures least { IfOk result (λ found. (rest : List ℕ) → AreBelow waiters.now.clients (start ∷ rest)
        → IsRing (graph_of waiters.now) (start ∷ rest)
        → IsTrue (is_some found) × IfSome found (λ ring. length ring.items ≤ length rest + 1)) }
{
    let search = steps_to(alloc, waiters, start)?;
    let steps = search.steps(start);
    if steps == 0 {
        return Ok(None);
    }
    let ring = ring_from(alloc, waiters, &search, start, steps)?;
    Ok(Some(ring))
}

// The clients on the way from the start back to it, in so many steps.
fn ring_from(
    alloc: Global,
    waiters: &Waiters<'_>,
    search: &Search,
    start: u16,
    steps: u32,
) -> Result<Vec<u16>, AllocError>
    requires start { start < waiters.now.clients }
    requires found { HasSteps waiters.now.clients (graph_of waiters.now) start search.now }
    requires steps { (0 < steps) × (steps ≡ steps_of search.now start) }
    ensures ring { IfOk result (λ ring. IsRingOf waiters.now.clients (graph_of waiters.now) ring.items) }
    ensures long { IfOk result (λ ring. length ring.items ≡ steps) }
{
    let mut ring = Vec::new(alloc);
    let mut client = start;
    for _step in 0..steps {
        ring.push(client)?;
        client = search.next(client);
    }
    Ok(ring)
}

/// Those of these clients that wait for one of the others.
pub(crate) fn waiting(
    alloc: Global,
    graph: &WaitGraph,
    clients: &[u16],
    others: &[u16],
) -> Result<Vec<u16>, AllocError>
    requires clients { All (λ c. c < graph.now.clients) clients.now }
    requires others { All (λ c. c < graph.now.clients) others.now }
    ensures waiting { IfOk result (λ waiting. waiting.items ≡ waiting_for (graph_of graph.now) others.now clients.now) }
    ensures within { IfOk result (λ waiting. All (λ c. c < graph.now.clients) waiting.items) }
{
    let waiting = clients
        .iter()
        .copied()
        .filter(|client| waits_for_one(graph, others, *client));
    waiting.collect(alloc)
}

/// Those of these clients that wait for none of the others.
pub(crate) fn not_waiting(
    alloc: Global,
    graph: &WaitGraph,
    clients: &[u16],
    others: &[u16],
) -> Result<Vec<u16>, AllocError>
    requires clients { All (λ c. c < graph.now.clients) clients.now }
    requires others { All (λ c. c < graph.now.clients) others.now }
    ensures waiting { IfOk result (λ rest. rest.items ≡ not_waiting_for (graph_of graph.now) others.now clients.now) }
    ensures within { IfOk result (λ rest. All (λ c. c < graph.now.clients) rest.items) }
{
    let rest = clients
        .iter()
        .copied()
        .filter(|client| !waits_for_one(graph, others, *client));
    rest.collect(alloc)
}
