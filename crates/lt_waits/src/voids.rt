ghost use Rattle.std.specs.Prelude.{◌≡◌, ◌<◌, ◌++◌, All, IfOk, OnOk, length, map};
ghost use Rattle.lt_spec.specs.Holdings.{waits_behind_void};
ghost use Rattle.lt_spec.specs.Rings.{Graph, numbers_below};
ghost use Rattle.lt_world.specs.Fields.{world_of};
ghost use Rattle.lt_waits.specs.Edges.{IsEdgeOf, pair_if, pairs_of, pairs_with};
ghost use Rattle.lt_waits.specs.Serves.{void_line_of, waits_text};

use crate::edge::Edge;
use crate::lines::push_pair;
use lt_script::Script;
use lt_world::World;
use std::alloc::{AllocError, Global};

/// Each client of the script with each client behind whose void ask it waits in the world.
pub(crate) fn void_pairs(
    alloc: Global,
    script: &Script,
    world: &World,
) -> Result<Vec<Edge>, AllocError>
    requires { world.now.script ≡ script.now }
    ensures pairs { IfOk result (λ edges. edges.items
        ≡ pairs_of (length script.now.clients) (waits_behind_void script.now (world_of world.now))) }
    ensures within { IfOk result (λ edges. All (IsEdgeOf (length script.now.clients)) edges.items) }
{
    let mut edges = Vec::new(alloc);
    for client in 0..script.clients() {
        push_voids_of(alloc, &mut edges, script, world, client)?;
    }
    Ok(edges)
}

// Adds the client with each one behind whose void ask it waits.
fn push_voids_of(
    alloc: Global,
    edges: &mut Vec<Edge>,
    script: &Script,
    world: &World,
    client: u16,
) -> Result<(), AllocError>
    requires script { world.now.script ≡ script.now }
    requires client { client < length script.now.clients }
    requires within { All (IsEdgeOf (length script.now.clients)) edges.old.items }
    ensures pairs { OnOk result (edges.new.items ≡ edges.old.items
        ++ pairs_with (waits_behind_void script.now (world_of world.now)) client (length script.now.clients)) }
    ensures within { OnOk result (All (IsEdgeOf (length script.now.clients)) edges.new.items) }
{
    let mut marks = Vec::new(alloc);
    world.push_voids(&mut marks, client)?;
    for other in 0..script.clients() {
        push_marked(edges, &marks, script.clients(), client, other)?;
    }
    Ok(())
}

// Adds the client with the other one, if this one is marked.
fn push_marked(
    edges: &mut Vec<Edge>,
    marks: &[bool],
    clients: u16,
    client: u16,
    other: u16,
) -> Result<(), AllocError>
    requires marks { length marks.now ≡ clients }
    requires client { client < clients }
    requires other { other < clients }
    requires within { All (IsEdgeOf clients) edges.old.items }
    ensures pair { OnOk result ((graph : Graph) → marks.now ≡ map (graph client) (numbers_below clients)
        → edges.new.items ≡ edges.old.items ++ pair_if graph client other) }
    ensures within { OnOk result (All (IsEdgeOf clients) edges.new.items) }
{
    if marks[usize::from(other)] {
        edges.push(Edge { client, other })?;
    }
    Ok(())
}

/// Writes the line `void` of each of these.
pub(crate) fn push_voids(
    out: &mut Vec<u8>,
    script: &Script,
    edges: &[Edge],
) -> Result<(), AllocError>
    requires { All (IsEdgeOf (length script.now.clients)) edges.now }
    ensures { OnOk result (out.new.items ≡ out.old.items ++ waits_text script.now (map void_line_of edges.now)) }
{
    for edge in edges {
        push_pair(out, script, "void", edge.client, edge.other)?;
    }
    Ok(())
}
