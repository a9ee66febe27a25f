ghost use Rattle.std.specs.Prelude.{◌≡◌, ◌<◌, ◌^◌, ℕ, true, false, length, slice_get, option_map, IfOk};
ghost use Rattle.lt_inbox.specs.Mail.{IsSquare, has_between, put_mark, senders_to, takes_by};
ghost use Rattle.lt_inbox.specs.Takes.{turn_of_take};

use crate::node_set::NodeSet;
use crate::takes::{self, Take};
use std::alloc::{AllocError, Global};
use std::marker::Model;

/// From whom to whom letters are on their way.
#[derive(Drop)]
pub(crate) struct Pairs {
    // The senders, by receiver.
    boxes: Vec<NodeSet>,
    // The receivers.
    receivers: NodeSet,
    // How many pairs there are.
    count: u32,
}

impl Model for Pairs {
    ghost use Rattle.std.specs.Prelude.{Bool, List};
    ghost use Rattle.lt_inbox.specs.Mail.{AreSummed};

    ghost Value = { List (List Bool) };

    ghost view = { λ p. p.boxes.items };

    ghost invariant = { λ p. AreSummed p.boxes.items p.receivers p.count };
}

impl Pairs {
    /// No pairs of so many nodes.
    pub(crate) fn new(alloc: Global, nodes: u8) -> Result<Pairs, AllocError>
        ensures nodes { IfOk result (λ pairs. length pairs ≡ nodes) }
        ensures square { IfOk result IsSquare }
        ensures empty { IfOk result (λ pairs. (p q : ℕ) → has_between pairs p q ≡ false) }
    {
        let boxes = boxes_of(alloc, nodes)?;
        Ok(Pairs {
            boxes,
            receivers: NodeSet::new(nodes),
            count: 0,
        })
    }

    /// Whether letters are on their way from the sender to the receiver.
    pub(crate) fn has(&self, sender: u8, receiver: u8) -> bool
        requires { receiver < length self.now }
        ensures { result ≡ has_between self.now sender receiver }
    {
        self.boxes[usize::from(receiver)].has(sender)
    }

    /// Letters are on their way from the sender to the receiver now, or are not.
    pub(crate) fn set(&mut self, sender: u8, receiver: u8, has: bool)
        requires { (sender < length self.old) × (receiver < length self.old) }
        ensures { self.new ≡ put_mark self.old sender receiver has }
    {
        if has {
            self.mark(sender, receiver);
        } else {
            self.clear(sender, receiver);
        }
    }

    /// Letters are on their way from the sender to the receiver.
    pub(crate) fn mark(&mut self, sender: u8, receiver: u8)
        requires { (sender < length self.old) × (receiver < length self.old) }
        ensures { self.new ≡ put_mark self.old sender receiver true }
    {
        if self.boxes[usize::from(receiver)].insert(sender) {
            self.receivers.insert(receiver);
            self.count += 1;
        }
    }

    // No letter is on its way from the sender to the receiver.
    fn clear(&mut self, sender: u8, receiver: u8)
        requires { (sender < length self.old) × (receiver < length self.old) }
        ensures { self.new ≡ put_mark self.old sender receiver false }
    {
        let senders = &mut self.boxes[usize::from(receiver)];
        if senders.remove(sender) {
            let more = senders.len() > 0;
            self.receivers.set(receiver, more);
            self.count -= 1;
        }
    }

    /// The number of takes.
    pub(crate) fn count_takes(&self) -> u32
        ensures count { result ≡ length (takes_by self.now) }
        ensures few { result < 2 ^ 16 }
    {
        self.count
    }

    /// The take at place `k`, by receiver and then by sender.
    pub(crate) fn take_at(&self, k: u32) -> Option<Take>
        ensures { option_map turn_of_take result ≡ slice_get (takes_by self.now) k }
    {
        if k >= self.count {
            return None;
        }
        takes::at(&self.boxes, &self.receivers, k)
    }
}

// So many sets without nodes, of so many nodes each.
fn boxes_of(alloc: Global, nodes: u8) -> Result<Vec<NodeSet>, AllocError>
    ensures receivers { IfOk result (λ boxes. length boxes.items ≡ nodes) }
    ensures senders { IfOk result (λ boxes. (q : ℕ) → q < nodes → length (senders_to boxes.items q) ≡ nodes) }
    ensures empty { IfOk result (λ boxes. (p q : ℕ) → has_between boxes.items p q ≡ false) }
{
    let mut boxes = Vec::with_capacity(alloc, usize::from(nodes))?;
    for _ in 0..nodes {
        boxes.push(NodeSet::new(nodes))?;
    }
    Ok(boxes)
}
