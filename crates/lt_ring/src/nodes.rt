// Some nodes, and which of them is a client's.
ghost use Rattle.std.specs.Prelude.{◌≡◌, ◌<◌, ◌++◌, ◌∷◌, [], OnOk, length, option_map, slice_index_or};
ghost use Rattle.std.specs.List.{list_all};
ghost use Rattle.lt_node.specs.NodeData.{NodeData};
ghost use Rattle.lt_ring.specs.Seen.{is_node_of, own_node, wait_seen, is_alike, clients_seen};

use lt_modes::Mode;
use lt_node::Node;
use std::alloc::{AllocError, Global};
use std::marker::Model;

/// Some nodes of one service.
#[derive(Drop)]
pub struct Nodes<'a> {
    nodes: Vec<&'a Node>,
}

impl<'a> Model for Nodes<'a> {
    ghost use Rattle.std.specs.Prelude.{List, map};
    ghost use Rattle.std.specs.List.{list_all};
    ghost use Rattle.lt_node.specs.NodeData.{NodeData};

    ghost Value = { List NodeData };

    ghost view = { λ n. map (λ node. node.now) n.nodes.items };
}

impl<'a> Nodes<'a> {
    pub fn none(alloc: Global) -> Nodes<'a>
        ensures { result ≡ [] }
    {
        Nodes {
            nodes: Vec::new(alloc),
        }
    }

    pub fn push(&mut self, node: &'a Node) -> Result<(), AllocError>
        ensures { OnOk result (self.new ≡ self.old ++ node.now ∷ []) }
    {
        self.nodes.push(node)?;
        Ok(())
    }

    /// The set in which the client waits at its own node, and the mode that it waits for.
    pub(crate) fn wait(&self, client: u16) -> Option<(u32, Mode)>
        ensures { result ≡ wait_seen self.now client }
    {
        match self.own(client) {
            Some(node) => lt_view::wait_of(node, client),
            None => None,
        }
    }

    /// The client's own node, if it is one of these.
    pub(crate) fn own(&self, client: u16) -> Option<&'a Node>
        ensures { option_map (λ node. node.now) result ≡ own_node self.now client }
    {
        for place in 0..self.count() {
            let node = self.at(place);
            if is_node_of(node, client) {
                return Some(node);
            }
        }
        None
    }

    /// How many clients the service has; none if there is no node, or some node has another number of nodes, sets or
    /// clients beside it than the first.
    pub fn clients(&self) -> Option<u16>
        ensures { result ≡ clients_seen self.now }
    {
        if self.count() == 0 {
            return None;
        }
        let first = self.at(0);
        if self.are_like(first) {
            Some(first.script().clients())
        } else {
            None
        }
    }

    // Whether all are like this one.
    fn are_like(&self, first: &Node) -> bool
        ensures { result ≡ list_all (is_alike first.now) self.now }
    {
        for place in 0..self.count() {
            if !is_alike(first, self.at(place)) {
                return false;
            }
        }
        true
    }

    pub(crate) fn count(&self) -> usize
        ensures { result ≡ length self.now }
    {
        self.nodes.len()
    }

    /// The node at this place of the list.
    pub(crate) fn at(&self, place: usize) -> &'a Node
        requires { place < length self.now }
        ensures { (other : NodeData) → slice_index_or self.now place other ≡ result.now }
    {
        self.nodes[place]
    }
}

// Whether the node is that of the client.
fn is_node_of(node: &Node, client: u16) -> bool
    ensures { result ≡ is_node_of client node.now }
{
    client < node.script().clients() && node.script().home(client) == node.me()
}

// Whether two nodes have as many nodes, sets and clients beside them.
fn is_alike(node: &Node, other: &Node) -> bool
    ensures { result ≡ is_alike node.now other.now }
{
    let (script, others) = (node.script(), other.script());
    script.nodes() == others.nodes()
        && script.sets() == others.sets()
        && script.clients() == others.clients()
}
