// Who waits for a client, as bits.
ghost use Rattle.std.specs.Prelude.{◌≡◌, ◌<◌, ℕ, true, false, length, IfOk, IfSome, IfNone};
ghost use Rattle.lt_waits.specs.Serves.{graph_of};
ghost use Rattle.lt_waits.specs.Bits.{row_has, words_for};
ghost use Rattle.lt_waits.specs.Search.{IsRow, HasRows};

use crate::bits::Bits;
use crate::graph::WaitGraph;
use std::alloc::{AllocError, Global};
use std::marker::Model;

/// A graph with those that wait for a client at hand.
#[derive(Drop)]
pub(crate) struct Waiters<'a> {
    graph: &'a WaitGraph,
    // For each client those that wait for it.
    rows: Vec<Bits>,
}

impl<'a> Model for Waiters<'a> {
    ghost use Rattle.lt_waits.specs.Serves.{GraphData};
    ghost use Rattle.lt_waits.specs.Search.{HasRows};

    ghost Value = { GraphData };

    ghost view = { λ w. w.graph.now };

    ghost invariant = { λ w. HasRows w.graph.now w.rows.items w.graph.now.clients };
}

impl<'a> Waiters<'a> {
    pub fn new(alloc: Global, graph: &'a WaitGraph) -> Result<Waiters<'a>, AllocError>
        ensures { IfOk result (λ waiters. waiters ≡ graph.now) }
    {
        let rows = rows_of(alloc, graph)?;
        Ok(Waiters { graph, rows })
    }

    pub fn clients(&self) -> u16
        ensures { result ≡ self.now.clients }
    {
        self.graph.clients()
    }

    /// One of those left that waits for the client.
    pub fn one_of(&self, left: &Bits, client: u16) -> Option<u16>
        requires client { client < self.now.clients }
        requires words { length left.now ≡ words_for self.now.clients }
        ensures within { IfSome result (λ other. other < self.now.clients) }
        ensures left { IfSome result (λ other. row_has left.now other ≡ true) }
        ensures waits { IfSome result (λ other. graph_of self.now other client ≡ true) }
        ensures none { IfNone result ((other : ℕ) → other < self.now.clients → row_has left.now other ≡ true
            → graph_of self.now other client ≡ false) }
    {
        self.rows[usize::from(client)].common(left)
    }
}

// For each client those that wait for it.
fn rows_of(alloc: Global, graph: &WaitGraph) -> Result<Vec<Bits>, AllocError>
    ensures { IfOk result (λ rows. HasRows graph.now rows.items graph.now.clients) }
{
    let mut rows = Vec::new(alloc);
    for client in 0..graph.clients() {
        rows.push(row_of(alloc, graph, client)?)?;
    }
    Ok(rows)
}

// Those that wait for the client.
fn row_of(alloc: Global, graph: &WaitGraph, client: u16) -> Result<Bits, AllocError>
    requires { client < graph.now.clients }
    ensures { IfOk result (λ row. IsRow graph.now client row) }
{
    let mut row = Bits::none(alloc, graph.clients())?;
    for other in 0..graph.clients() {
        if graph.waits(other, client) {
            row.insert(other);
        }
    }
    Ok(row)
}
