ghost use Rattle.std.specs.Prelude.{◌≡◌, ◌<◌, ◌++◌, ◌∷◌, [], All, OnOk, codes, flat_map, length};
ghost use Rattle.lt_modes.specs.Modes.{word_of};
ghost use Rattle.lt_modes.specs.Script.{client_name, set_name};
ghost use Rattle.lt_waits.specs.Edges.{IsEdgeOf};
ghost use Rattle.lt_waits.specs.Reasons.{want_of, want_text, keeping_text, waiting_text, gave_up_text, behind_void_text, edge_line, edges_text, void_line_text, voids_text};

use crate::edge::Edge;
use crate::tallied::Tallied;
use lt_modes::Mode;
use lt_script::Script;
use lt_tally::Holding;
use std::alloc::{AllocError, Global};

/// Writes the lines of these clients: what each wants, and how the other one keeps it from that.
pub(crate) fn push_edges(
    alloc: Global,
    out: &mut Vec<u8>,
    tallied: &Tallied<'_>,
    edges: &[Edge],
) -> Result<(), AllocError>
    requires { All (IsEdgeOf (length tallied.now.script.clients)) edges.now }
    ensures { OnOk result (out.new.items ≡ out.old.items ++ edges_text tallied.now.script tallied.now.lines edges.now) }
{
    for edge in edges {
        push_edge(alloc, out, tallied, *edge)?;
    }
    Ok(())
}

// Writes the line of a client that waits for another one.
fn push_edge(
    alloc: Global,
    out: &mut Vec<u8>,
    tallied: &Tallied<'_>,
    edge: Edge,
) -> Result<(), AllocError>
    requires { IsEdgeOf (length tallied.now.script.clients) edge }
    ensures { OnOk result
        (out.new.items ≡ out.old.items ++ (edge_line tallied.now.script tallied.now.lines edge ++ 10 ∷ [])) }
{
    out.extend_from_slice(tallied.script().client_name(edge.client))?;
    push_waiting(alloc, out, tallied, edge)?;
    out.extend_from_slice(b"\n")
}

// Writes the words behind the name of the client.
fn push_waiting(
    alloc: Global,
    out: &mut Vec<u8>,
    tallied: &Tallied<'_>,
    edge: Edge,
) -> Result<(), AllocError>
    requires { IsEdgeOf (length tallied.now.script.clients) edge }
    ensures { OnOk result (out.new.items ≡ out.old.items ++ waiting_text tallied.now.script tallied.now.lines edge.other
        (want_of tallied.now.script tallied.now.lines edge.client)) }
{
    let script = tallied.script();
    let name = script.client_name(edge.other);
    let Some(want) = tallied.want(edge.client) else {
        out.extend_from_slice(b" waits for ")?;
        return out.extend_from_slice(name);
    };
    push_want(out, script, want)?;
    push_keeping(out, name, &tallied.barring(alloc, want, edge.other)?)
}

// Writes what a client wants.
fn push_want(out: &mut Vec<u8>, script: &Script, want: Holding) -> Result<(), AllocError>
    requires { want.set < length script.now.sets }
    ensures { OnOk result (out.new.items ≡ out.old.items
        ++ (codes " wants " ++ (set_name script.now want.set ++ (codes " " ++ word_of want.mode)))) }
{
    out.extend_from_slice(b" wants ")?;
    out.extend_from_slice(script.set_name(want.set))?;
    out.push(b' ')?;
    out.extend_from_slice(want.mode.word().as_bytes())
}

// Writes how the one of this name keeps a client from what it wants: by its locks of these modes, or else in the queue.
fn push_keeping(out: &mut Vec<u8>, name: &[u8], modes: &[Mode]) -> Result<(), AllocError>
    ensures { OnOk result (out.new.items ≡ out.old.items ++ keeping_text name.now modes.now) }
{
    let [mode, rest @ ..] = modes else {
        out.extend_from_slice(b", behind ")?;
        out.extend_from_slice(name)?;
        return out.extend_from_slice(b" in the queue");
    };
    out.extend_from_slice(b", which ")?;
    out.extend_from_slice(name)?;
    out.extend_from_slice(b" holds by ")?;
    out.extend_from_slice(mode.word().as_bytes())?;
    push_further_modes(out, rest)
}

fn push_further_modes(out: &mut Vec<u8>, modes: &[Mode]) -> Result<(), AllocError>
    ensures { OnOk result
        (out.new.items ≡ out.old.items ++ flat_map (λ mode. codes " and " ++ word_of mode) modes.now) }
{
    for mode in modes {
        out.extend_from_slice(b" and ")?;
        out.extend_from_slice(mode.word().as_bytes())?;
    }
    Ok(())
}

/// Writes the lines of these clients: what each wants, and whose void ask is before it.
pub(crate) fn push_void_edges(
    out: &mut Vec<u8>,
    tallied: &Tallied<'_>,
    edges: &[Edge],
) -> Result<(), AllocError>
    requires { All (IsEdgeOf (length tallied.now.script.clients)) edges.now }
    ensures { OnOk result (out.new.items ≡ out.old.items ++ voids_text tallied.now.script tallied.now.lines edges.now) }
{
    for edge in edges {
        push_void_edge(out, tallied, *edge)?;
    }
    Ok(())
}

// Writes the line of a client that waits behind a void ask of another one.
fn push_void_edge(out: &mut Vec<u8>, tallied: &Tallied<'_>, edge: Edge) -> Result<(), AllocError>
    requires { IsEdgeOf (length tallied.now.script.clients) edge }
    ensures { OnOk result
        (out.new.items ≡ out.old.items ++ (void_line_text tallied.now.script tallied.now.lines edge ++ 10 ∷ [])) }
{
    out.extend_from_slice(tallied.script().client_name(edge.client))?;
    push_behind_void(out, tallied, edge)?;
    out.extend_from_slice(b"\n")
}

// Writes the words behind the name of the client.
fn push_behind_void(out: &mut Vec<u8>, tallied: &Tallied<'_>, edge: Edge) -> Result<(), AllocError>
    requires { IsEdgeOf (length tallied.now.script.clients) edge }
    ensures { OnOk result
        (out.new.items ≡ out.old.items ++ behind_void_text tallied.now.script tallied.now.lines edge) }
{
    push_waiting_for(out, tallied, edge.client)?;
    push_gave_up(out, tallied.script().client_name(edge.other))
}

// Writes that the one of this name gave up the ask that is before.
fn push_gave_up(out: &mut Vec<u8>, name: &[u8]) -> Result<(), AllocError>
    ensures { OnOk result (out.new.items ≡ out.old.items ++ gave_up_text name.now) }
{
    out.extend_from_slice(b" behind an ask that ")?;
    out.extend_from_slice(name)?;
    out.extend_from_slice(b" gave up")
}

// Writes what a client wants that waits behind a void ask.
fn push_waiting_for(out: &mut Vec<u8>, tallied: &Tallied<'_>, client: u16) -> Result<(), AllocError>
    requires { client < length tallied.now.script.clients }
    ensures { OnOk result (out.new.items ≡ out.old.items
        ++ want_text tallied.now.script (want_of tallied.now.script tallied.now.lines client)) }
{
    let Some(want) = tallied.want(client) else {
        return out.extend_from_slice(b" waits");
    };
    push_want(out, tallied.script(), want)?;
    out.extend_from_slice(b",")
}
