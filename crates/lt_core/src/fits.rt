// Which letters a node can be sent for the set: the test before one is taken.
ghost use Rattle.std.specs.Prelude.{◌≡◌, ◌+◌, ◌<◌, ◌^◌, ◌++◌, nat_lt, map, filter_map, drop, length, slice_index_or};
ghost use Rattle.std.specs.List.{list_all};
ghost use Rattle.lt_modes.specs.State.{no_ask, ParkedAsk};
ghost use Rattle.lt_modes.specs.Fits.{fits, head_fits, body_fits, ask_fits, copy_fits, token_fits, tell_fits, queue_fits, is_pending, is_known, is_at_home, has_client, asks_here, parked_asks, are_apart, ask_if};
ghost use Rattle.lt_desk.specs.declared.parked.Parked.{Parked as AnyParked};
ghost use Rattle.lt_desk.specs.LetterSeen.{letter_seen, body_seen, tell_seen, parked_seen};
ghost use Rattle.lt_core.specs.Steps.{rule_numbers, is_known_item, is_apart_from};

use crate::numbers::Numbers;
use crate::one_set::{Core, is_of};
use lt_desk::{Body, Desk, Letter, Parked, Tell};
use lt_modes::Ask;
use std::collections::VecDeque;

/// The greatest clock: no move is made at it, and no letter of it is taken.
pub const LAST_CLOCK: u64 = (1 << 62) - 1;

impl Core {
    /// Whether the node, with this clock, can be sent the letter. Takes no memory.
    pub fn fits(&self, clock: u64, letter: &Letter, numbers: &Numbers) -> bool
        ensures { result ≡ fits (rule_numbers numbers.now) self.now.node clock self.now.state (letter_seen letter.now) }
    {
        head_fits(clock, letter, numbers)
            && self.body_fits(letter.stamp.clock, &letter.body, numbers)
    }

    // Whether what it says can be said to this node, in a letter with this clock.
    fn body_fits(&self, clock: u64, body: &Body, numbers: &Numbers) -> bool
        ensures { result ≡ body_fits (rule_numbers numbers.now) self.now.node self.now.state clock (body_seen body.now) }
    {
        match body {
            Body::Ask { ask, .. } => self.ask_fits(ask, numbers),
            Body::Tell(tell) => tell_fits(clock, tell, numbers),
            Body::Copy(ask) => self.copy_fits(ask, numbers),
            Body::Token(desk) => self.token_fits(clock, desk, numbers),
            Body::Freeze(news) => news.number <= clock,
        }
    }

    fn ask_fits(&self, ask: &Ask, numbers: &Numbers) -> bool
        ensures { result ≡ ask_fits (rule_numbers numbers.now) self.now.node self.now.state ask.now }
    {
        numbers.is_at_home(ask) && (self.is_known(ask) && !self.has_ask_of(ask.client))
    }

    fn copy_fits(&self, ask: &Ask, numbers: &Numbers) -> bool
        ensures { result ≡ copy_fits (rule_numbers numbers.now) self.now.node self.now.state ask.now }
    {
        numbers.is_at_home(ask)
            && (ask.node == self.links.me()
                && (self.is_pending(ask) && !self.has_ask_of(ask.client)))
    }

    fn token_fits(&self, clock: u64, desk: &Desk, numbers: &Numbers) -> bool
        ensures { result ≡ token_fits (rule_numbers numbers.now) self.now.node self.now.state clock desk.now.desk }
    {
        self.desk.is_none()
            && (self.firm().epoch <= desk.epoch()
                && (desk.epoch() <= clock
                    && (desk.freeze_number() <= clock
                        && (desk.nodes() == numbers.nodes && self.queue_fits(desk, numbers)))))
    }

    // Whether the asks that the desk brings fit those that are parked here.
    fn queue_fits(&self, desk: &Desk, numbers: &Numbers) -> bool
        ensures { result ≡ queue_fits (rule_numbers numbers.now) self.now.node self.now.state desk.now.desk.queue }
    {
        are_at_home(desk, numbers) && (self.are_apart(desk) && self.are_known(desk))
    }

    // Whether no two asks of the desk's queue and of those that are parked here are of one client.
    #[tactic(auto, using(crate::proofs::FitsLemmas::apart_step))]
    fn are_apart(&self, desk: &Desk) -> bool
        ensures { result ≡ are_apart (desk.now.desk.queue ++ parked_asks self.now.state) }
    {
        for k in 0..desk.len() {
            let client = desk.ask(k).client;
            if has_later(desk, k + 1, client) || self.parks(client) {
                return false;
            }
        }
        asks_apart(&self.parked)
    }

    // Whether the asks of this node, of the desk's queue and of those that are parked here, are unanswered.
    fn are_known(&self, desk: &Desk) -> bool
        ensures { result ≡ list_all (is_known self.now.node self.now.state) (desk.now.desk.queue ++ parked_asks self.now.state) }
    {
        for k in 0..desk.len() {
            if !self.is_known(&desk.ask(k)) {
                return false;
            }
        }
        self.parked_known()
    }

    fn parked_known(&self) -> bool
        ensures { result ≡ list_all (is_known self.now.node self.now.state) (parked_asks self.now.state) }
    {
        for k in 0..self.parked_len() {
            if !self.knows(k) {
                return false;
            }
        }
        true
    }

    pub(crate) fn parked_len(&self) -> usize
        ensures { result ≡ length self.now.state.parked }
    {
        self.parked.len()
    }

    // Whether it is a tell that is parked at this place, or an ask that is known.
    fn knows(&self, k: usize) -> bool
        requires { k < length self.now.state.parked }
        ensures { result ≡ is_known_item self.now.node self.now.state (slice_index_or self.now.state.parked k (ParkedAsk no_ask)) }
    {
        match &self.parked[k] {
            Parked::Ask(ask) => self.is_known(ask),
            Parked::Tell(_) => true,
        }
    }

    // Whether the ask is unanswered, where it is of this node.
    fn is_known(&self, ask: &Ask) -> bool
        ensures { result ≡ is_known self.now.node self.now.state ask.now }
    {
        ask.node != self.links.me() || self.is_pending(ask)
    }

    fn is_pending(&self, ask: &Ask) -> bool
        ensures { result ≡ is_pending self.now.state ask.now }
    {
        self.pending.has(ask)
    }

    // Whether an ask of the client is parked or queued here.
    fn has_ask_of(&self, client: u16) -> bool
        ensures { result ≡ has_client client (asks_here self.now.state) }
    {
        self.parks(client) || self.queues(client)
    }
}

fn head_fits(clock: u64, letter: &Letter, numbers: &Numbers) -> bool
    ensures { result ≡ head_fits (rule_numbers numbers.now) clock (letter_seen letter.now) }
{
    letter.set < numbers.sets
        && (letter.link.node < numbers.nodes
            && (letter.link.epoch <= letter.stamp.clock
                && (is_early(letter.stamp.clock) && is_early(clock))))
}

fn is_early(clock: u64) -> bool
    ensures { result ≡ nat_lt (clock + 1) (2 ^ 62) }
{
    clock < LAST_CLOCK
}

fn tell_fits(clock: u64, tell: &Tell, numbers: &Numbers) -> bool
    ensures { result ≡ tell_fits (rule_numbers numbers.now) clock (tell_seen tell.now) }
{
    tell.node < numbers.nodes && tell.stamp.clock <= clock
}

// Whether the asks of the desk's queue are of clients of their nodes.
fn are_at_home(desk: &Desk, numbers: &Numbers) -> bool
    ensures { result ≡ list_all (is_at_home (rule_numbers numbers.now)) desk.now.desk.queue }
{
    for k in 0..desk.len() {
        if !numbers.is_at_home(&desk.ask(k)) {
            return false;
        }
    }
    true
}

// Whether an ask of the client is in the desk's queue, from this place on.
pub(crate) fn has_later(desk: &Desk, from: u32, client: u16) -> bool
    ensures { result ≡ has_client client (drop from desk.now.desk.queue) }
{
    for k in from..desk.len() {
        if desk.ask(k).client == client {
            return true;
        }
    }
    false
}

// Whether no two parked asks are of one client.
fn asks_apart(parked: &VecDeque<Parked>) -> bool
    ensures { result ≡ are_apart (filter_map ask_if (map parked_seen parked.now.items)) }
{
    for k in 0..parked.len() {
        if !is_apart(parked, k) {
            return false;
        }
    }
    true
}

// Whether no later parked ask is of the client of the ask at this place.
fn is_apart(parked: &VecDeque<Parked>, k: usize) -> bool
    requires { k < length parked.now.items }
    ensures { (item : AnyParked) → result ≡ is_apart_from (parked_seen (slice_index_or parked.now.items k item)) (filter_map ask_if (map parked_seen (drop (k + 1) parked.now.items))) }
{
    match &parked[k] {
        Parked::Ask(ask) => !parks_later(parked, k + 1, ask.client),
        Parked::Tell(_) => true,
    }
}

// Whether an ask of the client is parked, from this place on.
pub(crate) fn parks_later(parked: &VecDeque<Parked>, from: usize, client: u16) -> bool
    ensures { result ≡ has_client client (filter_map ask_if (map parked_seen (drop from parked.now.items))) }
{
    for k in from..parked.len() {
        if is_of(&parked[k], client) {
            return true;
        }
    }
    false
}
