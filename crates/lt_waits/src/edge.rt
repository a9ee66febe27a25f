ghost use Rattle.std.specs.Prelude.{◌≡◌, ◌<◌, ◌+◌, ℕ, All, IfOk, IfSome, drop, length};
ghost use Rattle.lt_spec.specs.Rings.{first_or};
ghost use Rattle.lt_waits.specs.Edges.{IsEdgeOf, ring_edges};

use std::alloc::{AllocError, Global};

/// A client that waits, and another one for which it waits.
#[derive(Clone, Copy, Debug, PartialEq, Eq)]
pub struct Edge {
    pub client: u16,
    pub other: u16,
}

/// Each client of a ring with the next one, and the last one with the first.
pub(crate) fn ring_edges(alloc: Global, ring: &[u16]) -> Result<Vec<Edge>, AllocError>
    ensures edges { IfOk result (λ edges. edges.items ≡ ring_edges ring.now) }
    ensures within { (n : ℕ) → All (λ c. c < n) ring.now → IfOk result (λ edges. All (IsEdgeOf n) edges.items) }
{
    let mut edges = Vec::new(alloc);
    for place in 0..ring.len() {
        edges.push(Edge {
            client: ring[place],
            other: next_in(ring, place),
        })?;
    }
    Ok(edges)
}

// The client behind this place of the ring, and the first one behind the last.
fn next_in(ring: &[u16], place: usize) -> u16
    requires { place < length ring.now }
    ensures next { result ≡ first_or (first_or 0 ring.now) (drop (place + 1) ring.now) }
    ensures within { (n : ℕ) → All (λ c. c < n) ring.now → result < n }
{
    if place + 1 < ring.len() {
        ring[place + 1]
    } else {
        ring[0]
    }
}
