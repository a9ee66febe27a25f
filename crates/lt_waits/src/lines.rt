ghost use Rattle.std.specs.Prelude.{◌≡◌, ◌<◌, ◌≤◌, ◌++◌, ◌∷◌, [], All, IfOk, OnOk, codes, length};
ghost use Rattle.lt_text.specs.Text.{after_space, spaced, text};
ghost use Rattle.lt_modes.specs.Script.{ScriptData, client_name};
ghost use Rattle.lt_spec.specs.Rings.{Graph, ring_set, CycleLine, NoCycleLine, waits_lines, ends_lines, last_lines, report};
ghost use Rattle.lt_waits.specs.Serves.{graph_of, Tells, waits_text, waits_line, waits_lines_of, ends_line};

use crate::graph::WaitGraph;
use crate::rings::{ring_of, ring_set, walk_end};
use lt_script::Script;
use std::alloc::{AllocError, Global};

/// The report of who waits for whom among the clients of the script.
///
/// First comes a line `waits CLIENT OTHER` for each pair, by client and then by the other one. Then comes a line `cycle`
/// with clients that wait in a ring, if some do. Else comes a line `no cycle`, and a line `ends CLIENT LAST` for each
/// client that waits: a walk from it that goes each time to the least client for which the one before waits ends
/// there.
pub fn report_of(alloc: Global, script: &Script, graph: &WaitGraph) -> Result<Vec<u8>, AllocError>
    requires { graph.now.clients ≡ length script.now.clients }
    ensures { IfOk result (λ text. (told : Graph) → Tells graph.now told
        → text.items ≡ waits_text script.now (report (length script.now.clients) told)) }
{
    let mut out = Vec::new(alloc);
    push_waits(&mut out, script, graph)?;
    push_last(alloc, &mut out, script, graph)?;
    Ok(out)
}

// Writes the lines `waits`, by client.
fn push_waits(out: &mut Vec<u8>, script: &Script, graph: &WaitGraph) -> Result<(), AllocError>
    requires { graph.now.clients ≤ length script.now.clients }
    ensures { OnOk result (out.new.items ≡ out.old.items ++ waits_text script.now (waits_lines graph.now.clients (graph_of graph.now))) }
{
    for client in 0..graph.clients() {
        push_waits_of(out, script, graph, client)?;
    }
    Ok(())
}

// Writes the client's lines `waits`, by the other one.
fn push_waits_of(
    out: &mut Vec<u8>,
    script: &Script,
    graph: &WaitGraph,
    client: u16,
) -> Result<(), AllocError>
    requires clients { graph.now.clients ≤ length script.now.clients }
    requires client { client < graph.now.clients }
    ensures { OnOk result (out.new.items ≡ out.old.items ++ waits_text script.now (waits_lines_of graph.now.clients (graph_of graph.now) client)) }
{
    for other in 0..graph.clients() {
        push_waits_line(out, script, graph, client, other)?;
    }
    Ok(())
}

// Writes the line `waits` of two clients, if the first waits for the second.
fn push_waits_line(
    out: &mut Vec<u8>,
    script: &Script,
    graph: &WaitGraph,
    client: u16,
    other: u16,
) -> Result<(), AllocError>
    requires clients { graph.now.clients ≤ length script.now.clients }
    requires client { client < graph.now.clients }
    requires other { other < graph.now.clients }
    ensures { OnOk result (out.new.items ≡ out.old.items ++ waits_text script.now (waits_line (graph_of graph.now) client other)) }
{
    if !graph.waits(client, other) {
        return Ok(());
    }
    push_pair(out, script, "waits", client, other)
}

// Writes the lines after those: the ring, or if there is none the ends of the walks.
fn push_last(
    alloc: Global,
    out: &mut Vec<u8>,
    script: &Script,
    graph: &WaitGraph,
) -> Result<(), AllocError>
    requires { graph.now.clients ≤ length script.now.clients }
    ensures { OnOk result (out.new.items
        ≡ out.old.items ++ waits_text script.now (last_lines graph.now.clients (graph_of graph.now) (ring_set graph.now.clients (graph_of graph.now)))) }
{
    let members = ring_set(alloc, graph)?;
    if members.is_empty() {
        push_no_cycle(out)?;
        return push_ends(out, script, graph);
    }
    let ring = ring_of(alloc, graph, &members)?;
    push_cycle(out, script, &ring)
}

// Writes the line of clients that wait in a ring.
fn push_cycle(out: &mut Vec<u8>, script: &Script, ring: &[u16]) -> Result<(), AllocError>
    requires { All (λ c. c < length script.now.clients) ring.now }
    ensures { OnOk result (out.new.items ≡ out.old.items ++ waits_text script.now (CycleLine ring.now ∷ [])) }
{
    out.extend_from_slice(b"cycle")?;
    for client in ring {
        push_word(out, script.client_name(*client))?;
    }
    push_line_end(out)
}

// Writes the line that no clients wait in a ring.
fn push_no_cycle(out: &mut Vec<u8>) -> Result<(), AllocError>
    ensures { (script : ScriptData) → OnOk result (out.new.items ≡ out.old.items ++ waits_text script (NoCycleLine ∷ [])) }
{
    out.extend_from_slice(b"no cycle\n")
}

// Writes the lines `ends` of the clients that wait, in order.
fn push_ends(out: &mut Vec<u8>, script: &Script, graph: &WaitGraph) -> Result<(), AllocError>
    requires { graph.now.clients ≤ length script.now.clients }
    ensures { OnOk result (out.new.items ≡ out.old.items ++ waits_text script.now (ends_lines graph.now.clients (graph_of graph.now))) }
{
    for client in 0..graph.clients() {
        push_ends_line(out, script, graph, client)?;
    }
    Ok(())
}

// Writes the line `ends` of the client, if it waits.
fn push_ends_line(
    out: &mut Vec<u8>,
    script: &Script,
    graph: &WaitGraph,
    client: u16,
) -> Result<(), AllocError>
    requires clients { graph.now.clients ≤ length script.now.clients }
    requires client { client < graph.now.clients }
    ensures { OnOk result (out.new.items ≡ out.old.items ++ waits_text script.now (ends_line graph.now.clients (graph_of graph.now) client)) }
{
    if !graph.waits_for_some(client) {
        return Ok(());
    }
    push_pair(out, script, "ends", client, walk_end(graph, client))
}

/// Writes a line of a word and the names of two clients.
pub(crate) fn push_pair(
    out: &mut Vec<u8>,
    script: &Script,
    first: &str,
    client: u16,
    other: u16,
) -> Result<(), AllocError>
    requires client { client < length script.now.clients }
    requires other { other < length script.now.clients }
    ensures { OnOk result (out.new.items
        ≡ out.old.items ++ text (spaced (first.now ∷ client_name script.now client ∷ client_name script.now other ∷ []) ∷ [])) }
{
    out.extend_from_slice(first.as_bytes())?;
    push_word(out, script.client_name(client))?;
    push_word(out, script.client_name(other))?;
    push_line_end(out)
}

// Writes a later word of a line.
fn push_word(out: &mut Vec<u8>, word: &[u8]) -> Result<(), AllocError>
    ensures { OnOk result (out.new.items ≡ out.old.items ++ after_space word.now) }
{
    out.push(b' ')?;
    out.extend_from_slice(word)
}

fn push_line_end(out: &mut Vec<u8>) -> Result<(), AllocError>
    ensures { OnOk result (out.new.items ≡ out.old.items ++ codes "\n") }
{
    out.extend_from_slice(b"\n")
}
