// The graph of who waits for whom, and a ring in it.
ghost use Rattle.std.specs.Prelude.{◌≡◌, ◌<◌, ◌↔◌, ◌++◌, IfOk, IfSome, OnOk, IsTrue, is_some, length, map};
ghost use Rattle.lt_spec.specs.Rings.{numbers_below};
ghost use Rattle.lt_waits.specs.Serves.{Tells};
ghost use Rattle.lt_waits.specs.Shortest.{HasRing, IsRingOf, IsShortest};
ghost use Rattle.lt_ring.specs.Seen.{AreWaits, waits_seen};

use crate::nodes::Nodes;
use lt_modes::Mode;
use lt_waits::WaitGraph;
use std::alloc::{AllocError, Global};

impl<'a> Nodes<'a> {
    /// A ring of clients of which no ring has fewer, if some of so many clients wait in a ring: each waits for the next
    /// one, and the last one for the first.
    pub fn ring(&self, alloc: Global, clients: u16) -> Result<Option<Vec<u16>>, AllocError>
        ensures found { IfOk result (λ found. IsTrue (is_some found) ↔ HasRing clients (waits_seen self.now)) }
        ensures ring { IfOk result (λ found. IfSome found (λ ring. IsRingOf clients (waits_seen self.now) ring.items)) }
        ensures shortest { IfOk result (λ found. IfSome found (λ ring. IsShortest clients
            (waits_seen self.now) ring.items)) }
    {
        let graph = self.graph(alloc, clients)?;
        let found = graph.shortest_ring(alloc)?;
        Ok(found)
    }

    // Asks of each two of so many clients whether the first waits for the second.
    fn graph(&self, alloc: Global, clients: u16) -> Result<WaitGraph, AllocError>
        ensures clients { IfOk result (λ graph. graph.clients ≡ clients) }
        ensures told { IfOk result (λ graph. Tells graph (waits_seen self.now)) }
    {
        let waits = self.waits(alloc, clients)?;
        let mut pairs = Vec::new(alloc);
        for client in 0..clients {
            self.push_row(&mut pairs, &waits, client, clients)?;
        }
        Ok(WaitGraph::new(clients, pairs))
    }

    // For what each of so many clients waits.
    fn waits(&self, alloc: Global, clients: u16) -> Result<Vec<Option<(u32, Mode)>>, AllocError>
        ensures { IfOk result (λ waits. AreWaits self.now clients waits.items) }
    {
        let mut waits = Vec::new(alloc);
        for client in 0..clients {
            waits.push(self.wait(client))?;
        }
        Ok(waits)
    }

    // Adds the marks of the client with each client.
    fn push_row(
        &self,
        pairs: &mut Vec<bool>,
        waits: &[Option<(u32, Mode)>],
        client: u16,
        clients: u16,
    ) -> Result<(), AllocError>
        requires waits { AreWaits self.now clients waits.now }
        requires client { client < clients }
        ensures { OnOk result (pairs.new.items
            ≡ pairs.old.items ++ map (waits_seen self.now client) (numbers_below clients)) }
    {
        for other in 0..clients {
            pairs.push(self.waits_for(waits, client, other, clients))?;
        }
        Ok(())
    }

    // Whether the client waits for the other one.
    fn waits_for(
        &self,
        waits: &[Option<(u32, Mode)>],
        client: u16,
        other: u16,
        clients: u16,
    ) -> bool
        requires waits { AreWaits self.now clients waits.now }
        requires client { client < clients }
        requires other { other < clients }
        ensures { result ≡ waits_seen self.now client other }
    {
        let (wait, others) = (waits[usize::from(client)], waits[usize::from(other)]);
        client != other && self.is_kept(client, other, wait, others)
    }
}
