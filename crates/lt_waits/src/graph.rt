ghost use Rattle.std.specs.Prelude.{◌≡◌, ◌<◌, ◌*◌, length, IfSome};
ghost use Rattle.lt_spec.specs.Rings.{Graph, next_among, numbers_below, waits_for_some};
ghost use Rattle.lt_waits.specs.Serves.{graph_of, marks, Tells};

use std::marker::Model;

/// Which of some clients waits for which.
#[derive(Debug, Drop)]
pub struct WaitGraph {
    clients: u16,
    // A mark for each pair: those of the first client with each client in order, then those of the second, and so on.
    pairs: Vec<bool>,
}

impl Model for WaitGraph {
    ghost use Rattle.std.specs.Prelude.{◌≡◌, ◌<◌, ◌*◌, ◌^◌, length};
    ghost use Rattle.lt_waits.specs.Serves.{GraphData};

    ghost Value = { GraphData };

    ghost view = { λ g. record { clients = g.clients; pairs = g.pairs.items } };

    ghost invariant = { λ g. (g.clients < 2 ^ 16) × (length g.pairs.items ≡ g.clients * g.clients) };
}

impl WaitGraph {
    /// The graph of so many clients with a mark for each pair, whether the first one waits for the second: the pairs of
    /// the first client come first, each client's in order.
    pub fn new(clients: u16, pairs: Vec<bool>) -> WaitGraph
        requires { length pairs.items ≡ clients * clients }
        ensures graph { result ≡ record { clients = clients; pairs = pairs.items } }
        ensures told { (graph : Graph) → pairs.items ≡ marks clients graph clients → Tells result graph }
    {
        WaitGraph { clients, pairs }
    }

    /// How many clients there are.
    pub fn clients(&self) -> u16
        ensures { result ≡ self.now.clients }
    {
        self.clients
    }

    /// Whether the first client waits for the second.
    pub fn waits(&self, client: u16, other: u16) -> bool
        requires client { client < self.now.clients }
        requires other { other < self.now.clients }
        ensures { result ≡ graph_of self.now client other }
    {
        self.pairs[usize::from(client) * usize::from(self.clients) + usize::from(other)]
    }

    /// The least client for which this one waits, if it waits for one.
    pub fn next(&self, client: u16) -> Option<u16>
        requires { client < self.now.clients }
        ensures next { result ≡ next_among (graph_of self.now) (numbers_below self.now.clients) client }
        ensures within { IfSome result (λ other. other < self.now.clients) }
    {
        (0..self.clients).find(|other| self.waits(client, *other))
    }

    /// Whether the client waits for some client.
    pub fn waits_for_some(&self, client: u16) -> bool
        requires { client < self.now.clients }
        ensures { result ≡ waits_for_some self.now.clients (graph_of self.now) client }
    {
        (0..self.clients).any(|other| self.waits(client, other))
    }
}
