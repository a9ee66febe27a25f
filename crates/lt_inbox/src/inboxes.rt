ghost use Rattle.std.specs.Prelude.{◌≡◌, ◌<◌, ◌≤◌, ◌+◌, ◌-◌, ◌^◌, ℕ, [], ◌∷◌, ◌++◌, All, length, slice_get, option_map, IfOk, IsOk, OnOk};
ghost use Rattle.lt_modes.specs.State as rules;
ghost use Rattle.lt_desk.specs.LetterSeen.{letter_seen};
ghost use Rattle.lt_spec.specs.World.{is_some_letter};
ghost use Rattle.lt_inbox.specs.Mail.{SameLetters, AreDelivered, IsTaken, mail_in, sent_of, takes_in};
ghost use Rattle.lt_inbox.specs.Takes.{turn_of_take};

use crate::counting::{SenderCounts, count_sent, count_taken, no_counts};
use crate::pairs::Pairs;
use crate::sent::{Sent, take_first};
use crate::takes::Take;
use lt_desk::{Letter, Out, Post};
use std::alloc::{AllocError, Global};
use std::collections::VecDeque;
use std::marker::Model;

/// The letters that are on their way between nodes, with one room for all of them.
pub struct Inboxes {
    // The oldest first: few are on their way at a time, so the first one from a sender to a receiver is soon found.
    sent: VecDeque<Sent>,
    // From whom to whom they go.
    pairs: Pairs,
    // How many go from whom to whom, by receiver: so the one that is taken needs no look for those behind it.
    counts: Vec<SenderCounts>,
}

impl Model for Inboxes {
    ghost use Rattle.std.specs.Prelude.{◌-◌, length};
    ghost use Rattle.std.specs.VecDeque.{deque_capacity};
    ghost use Rattle.lt_inbox.specs.Mail.{MailData};
    ghost use Rattle.lt_inbox.specs.Counts.{AreNoted};

    ghost Value = { MailData };

    ghost view = { λ i. record {
      nodes = length i.pairs;
      sent = i.sent.items;
      free = deque_capacity i.sent - length i.sent.items;
    } };

    ghost invariant = { λ i. AreNoted i.pairs i.counts.items i.sent.items };
}

// Written out, so that all places which let the inboxes go call this.
impl Drop for Inboxes {
    fn drop(self) {
        let Inboxes {
            sent,
            pairs,
            counts,
        } = self;
        drop(sent);
        drop(pairs);
        drop(counts);
    }
}

impl Inboxes {
    /// No letters between so many nodes.
    pub fn new(alloc: Global, nodes: u8) -> Result<Inboxes, AllocError>
        ensures nodes { IfOk result (λ inboxes. inboxes.nodes ≡ nodes) }
        ensures empty { IfOk result (λ inboxes. inboxes.sent ≡ []) }
    {
        let pairs = Pairs::new(alloc, nodes)?;
        let counts = no_counts(alloc, nodes)?;
        let sent = VecDeque::new(alloc);
        Ok(Inboxes {
            sent,
            pairs,
            counts,
        })
    }

    /// Whether a letter is on its way from the sender to the receiver.
    #[tactic(auto, using(crate::proofs::Counts::letters_noted))]
    pub fn has_mail(&self, sender: u8, receiver: u8) -> bool
        requires { (sender < self.now.nodes) × (receiver < self.now.nodes) }
        ensures { result ≡ is_some_letter (mail_in self.now sender receiver) }
    {
        self.pairs.has(sender, receiver)
    }

    /// Makes room for so many further letters.
    #[inline(always)]
    pub fn reserve(&mut self, letters: usize) -> Result<(), AllocError>
        ensures letters { SameLetters self.old self.new }
        ensures room { OnOk result (letters ≤ self.new.free) }
        ensures full { letters ≤ self.old.free → IsOk result }
    {
        if letters <= self.sent.capacity() - self.sent.len() {
            return Ok(());
        }
        self.sent.reserve(letters)
    }

    /// Puts the letters that this sender sends out behind those that are on their way.
    pub fn deliver(&mut self, sender: u8, out: &mut Out)
        requires sender { sender < self.old.nodes }
        requires targets { All (λ (post : rules.Post). post.to < self.old.nodes) out.old.posts }
        requires room { length out.old.posts ≤ self.old.free }
        ensures delivered { AreDelivered sender out.old.posts self.old self.new }
        ensures out { out.new ≡ record out.old { posts = [] } }
    {
        while let Some(post) = out.next_letter() {
            self.send(sender, post);
        }
    }

    // Puts one letter of this sender behind those that are on their way.
    fn send(&mut self, sender: u8, post: Post)
        requires sender { sender < self.old.nodes }
        requires receiver { post.to < self.old.nodes }
        requires room { 0 < self.old.free }
        ensures { self.new ≡ record self.old { sent = self.old.sent ++ sent_of sender post.to (letter_seen post.letter) ∷ []; free = self.old.free - 1 } }
    {
        self.pairs.mark(sender, post.to);
        count_sent(&mut self.counts, sender, post.to);
        self.sent.push_back_reserved(Sent::new(sender, post));
    }

    /// Takes the front letter from the sender to the receiver.
    pub fn pop_front(&mut self, sender: u8, receiver: u8) -> Letter
        requires inside { (sender < self.old.nodes) × (receiver < self.old.nodes) }
        requires some { 0 < length (mail_in self.old sender receiver) }
        ensures { IsTaken sender receiver (letter_seen result) self.old self.new }
    {
        let letter = take_first(&mut self.sent, sender, receiver);
        let more = count_taken(&mut self.counts, sender, receiver);
        self.pairs.set(sender, receiver, more);
        letter
    }

    /// Puts a letter before those that are on their way.
    pub fn put_front(&mut self, sender: u8, receiver: u8, letter: Letter)
        requires inside { (sender < self.old.nodes) × (receiver < self.old.nodes) }
        requires room { 0 < self.old.free }
        ensures { self.new ≡ record self.old { sent = sent_of sender receiver (letter_seen letter) ∷ self.old.sent; free = self.old.free - 1 } }
    {
        self.pairs.mark(sender, receiver);
        count_sent(&mut self.counts, sender, receiver);
        let post = Post {
            to: receiver,
            letter,
        };
        self.sent.push_front_reserved(Sent::new(sender, post));
    }

    /// The number of takes.
    #[tactic(auto, using(crate::proofs::TakeOrder::takes_marked))]
    pub fn count_takes(&self) -> u32
        ensures count { result ≡ length (takes_in self.now) }
        ensures few { result < 2 ^ 16 }
    {
        self.pairs.count_takes()
    }

    /// The take at place `k`, by receiver and then by sender.
    #[tactic(auto, using(crate::proofs::TakeOrder::takes_marked))]
    pub fn take_at(&self, k: u32) -> Option<Take>
        ensures { option_map turn_of_take result ≡ slice_get (takes_in self.now) k }
    {
        self.pairs.take_at(k)
    }
}
