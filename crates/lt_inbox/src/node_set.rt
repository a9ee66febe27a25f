ghost use Rattle.std.specs.Prelude.{◌≡◌, ◌<◌, ◌^◌, ℕ, true, false, not, length, slice_get, slice_set, IfSome, IfNone};
ghost use Rattle.lt_inbox.specs.Mail.{has_from, sender_count, senders_in};
ghost use Rattle.lt_inbox.specs.Bits.{IsFirstBit, IsFirstFrom, NoBitFrom, NoneFrom, OtherBitsStand, has_bit};

use std::marker::Model;

/// Some of so many nodes.
#[derive(Drop)]
pub(crate) struct NodeSet {
    // A bit for each number that a byte holds.
    words: [u64; 4],
    // How many nodes there are.
    nodes: u8,
    // How many of them the set has.
    len: u8,
}

impl Model for NodeSet {
    ghost use Rattle.std.specs.Prelude.{Bool, List};
    ghost use Rattle.lt_inbox.specs.Bits.{AreBits, marks_of};

    ghost Value = { List Bool };

    ghost view = { λ s. marks_of s.nodes s.words };

    ghost invariant = { λ s. AreBits s.words s.nodes s.len };
}

impl NodeSet {
    /// None of so many nodes.
    pub(crate) fn new(nodes: u8) -> NodeSet
        ensures count { length result ≡ nodes }
        ensures empty { NoneFrom result 0 }
    {
        NodeSet {
            words: [0; 4],
            nodes,
            len: 0,
        }
    }

    /// How many nodes it has.
    pub(crate) fn len(&self) -> u8
        ensures { result ≡ sender_count self.now }
    {
        self.len
    }

    pub(crate) fn has(&self, node: u8) -> bool
        ensures { result ≡ has_from self.now node }
    {
        has_bit(&self.words, node)
    }

    /// The lowest node from this number on.
    pub(crate) fn first_from(&self, from: u8) -> Option<u8>
        ensures some { IfSome result (IsFirstFrom self.now from) }
        ensures none { IfNone result (NoneFrom self.now from) }
        ensures few { length self.now < 2 ^ 8 }
    {
        first_bit(&self.words, from)
    }

    /// The node is in the set now, or is not.
    pub(crate) fn set(&mut self, node: u8, has: bool)
        requires { node < length self.old }
        ensures { self.new ≡ slice_set self.old node has }
    {
        if has {
            self.insert(node);
        } else {
            self.remove(node);
        }
    }

    /// Adds the node; answers whether it wasn't in the set.
    pub(crate) fn insert(&mut self, node: u8) -> bool
        requires { node < length self.old }
        ensures set { self.new ≡ slice_set self.old node true }
        ensures added { result ≡ not (has_from self.old node) }
    {
        if has_bit(&self.words, node) {
            return false;
        }
        set_bit(&mut self.words, node);
        self.len += 1;
        true
    }

    /// Removes the node; answers whether it was in the set.
    pub(crate) fn remove(&mut self, node: u8) -> bool
        requires { node < length self.old }
        ensures set { self.new ≡ slice_set self.old node false }
        ensures removed { result ≡ has_from self.old node }
    {
        if !has_bit(&self.words, node) {
            return false;
        }
        clear_bit(&mut self.words, node);
        self.len -= 1;
        true
    }
}

/// The node at place `k` of the set.
pub(crate) fn node_at(nodes: &NodeSet, k: u32) -> Option<u8>
    ensures { result ≡ slice_get (senders_in nodes.now) k }
{
    let mut left = k;
    let mut from = 0;
    while let Some(node) = nodes.first_from(from) {
        if left == 0 {
            return Some(node);
        }
        left -= 1;
        from = node + 1;
    }
    None
}

// Whether the number has its bit.
fn has_bit(words: &[u64; 4], number: u8) -> bool
    ensures { result ≡ has_bit words.now number }
{
    (words[usize::from(number / 64)] >> (number % 64)) & 1 == 1
}

fn set_bit(words: &mut [u64; 4], number: u8)
    ensures own { has_bit words.new number ≡ true }
    ensures others { OtherBitsStand number words.old words.new }
{
    words[usize::from(number / 64)] |= 1 << (number % 64);
}

fn clear_bit(words: &mut [u64; 4], number: u8)
    ensures own { has_bit words.new number ≡ false }
    ensures others { OtherBitsStand number words.old words.new }
{
    words[usize::from(number / 64)] &= !(1 << (number % 64));
}

// The lowest number from this one on that has its bit.
fn first_bit(words: &[u64; 4], from: u8) -> Option<u8>
    ensures some { IfSome result (IsFirstBit words.now from) }
    ensures none { IfNone result (NoBitFrom words.now from) }
{
    let mut mask = u64::MAX << (from % 64);
    for word in from / 64..4 {
        let here = words[usize::from(word)] & mask;
        if here != 0 {
            return Some(64 * word + here.trailing_zeros() as u8);
        }
        mask = u64::MAX;
    }
    None
}
