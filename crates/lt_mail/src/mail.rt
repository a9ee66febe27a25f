ghost use Rattle.std.specs.Prelude.{◌≡◌, ◌≢◌, ◌+◌, ◌≤◌, ◌<◌, ◌⊎◌, ℕ, [], ◌∷◌, ◌++◌, length, true, IfSome, IfNone, IsOk, OnOk, MatchBool};
ghost use mathlib.Core.List.{IsPrefix};
ghost use Rattle.lt_desk.specs.LetterSeen.{letter_seen};
ghost use Rattle.lt_mail.specs.Words.{out_at, in_at, outs_count, ins_count, sent_to, given_to, waiting_to, taken_from, known_from, if_to, if_from, places_to, end_at, IsFullTo, HasRoomFor, SameEnds, Sees};
ghost use Rattle.lt_mail.specs.Passing.{LooksAtSome, SawNone, KeepsSent, OutChanges, InChanges, Puts, Flushes, Takes, TakesKnown, TakesNone, FindsNoLetter, Saw};

use crate::in_lanes::InLanes;
use crate::lane::OutEnd;
use crate::passing::pass;
use crate::room::make_room;
use lt_desk::{Letter, Post};
use std::alloc::AllocError;
use std::collections::VecDeque;

/// The letters that one node sends and takes: an end of a ring for each node, its own included, which stays unused.
pub struct Mail {
    pub(crate) me: u8,
    pub(crate) outs: Vec<OutEnd>,
    pub(crate) ins: InLanes,
    // The letters that wait for a place in a ring, in the order in which they were put: the outbox to a node has those
    // of them that are for the node.
    pub(crate) waiting: VecDeque<Post>,
}

// Written out, so that all places which let the mail go call this.
impl Drop for Mail {
    fn drop(self) {
        let Mail {
            me: _,
            outs,
            ins,
            waiting,
        } = self;
        drop(outs);
        drop(ins);
        drop(waiting);
    }
}

// What a node does with its mail.
impl Mail {
    /// The node whose mail it is.
    pub fn node(&self) -> u8
        ensures { result ≡ self.now.me }
    {
        self.me
    }

    /// Puts a letter at the end of the outbox to a node.
    pub fn put(&mut self, to: u8, letter: Letter)
        requires peer { to < outs_count self.old }
        requires room { HasRoomFor self.old 1 }
        ensures sent { (node : ℕ) → sent_to self.new node ≡ sent_to self.old node ++ if_to to (letter_seen letter) node }
        ensures given { (node : ℕ) → given_to self.new node ≡ given_to self.old node }
        ensures rings { (node : ℕ) → end_at self.new node ≡ end_at self.old node }
        ensures room { (letters : ℕ) → HasRoomFor self.old (letters + 1) → HasRoomFor self.new letters }
        ensures ins { (node : ℕ) → in_at self.new node ≡ in_at self.old node }
        ensures ends { SameEnds self.old self.new }
    {
        self.put_on(to, letter);
    }

    /// Gives the ring to a node letters of its outbox, in order, while it has places.
    #[tactic(auto, using(crate::proofs::LookLemmas::flushes_given))]
    pub fn flush(&mut self, to: u8)
        requires peer { to < outs_count self.old }
        ensures sent { (node : ℕ) → sent_to self.new node ≡ sent_to self.old node }
        ensures given { IsPrefix (given_to self.old to) (given_to self.new to) }
        ensures first { length (given_to self.new to) < places_to self.new to → waiting_to self.new to ≡ [] }
        ensures stops { (waiting_to self.new to ≡ []) ⊎ IsFullTo self.new to }
        ensures outs { (node : ℕ) → node ≢ to → out_at self.new node ≡ out_at self.old node }
        ensures ins { (node : ℕ) → in_at self.new node ≡ in_at self.old node }
        ensures ends { SameEnds self.old self.new }
    {
        self.flush_on(to);
    }

    /// Whether a letter of a node is in its ring, and then known. It looks again, whatever is known.
    #[tactic(auto, using(crate::proofs::LookLemmas::sees_known, crate::proofs::LookLemmas::saw_letter))]
    pub fn has_letter(&mut self, from: u8) -> bool
        requires peer { from < ins_count self.old }
        ensures value { MatchBool result (0 < length (known_from self.new from)) (known_from self.new from ≡ []) }
        ensures taken { (node : ℕ) → taken_from self.new node ≡ taken_from self.old node }
        ensures known { IsPrefix (known_from self.old from) (known_from self.new from) }
        ensures ins { (node : ℕ) → node ≢ from → in_at self.new node ≡ in_at self.old node }
        ensures outs { (node : ℕ) → out_at self.new node ≡ out_at self.old node }
        ensures ends { SameEnds self.old self.new }
    {
        self.has_letter_on(from)
    }

    /// Whether a letter of a node is known to be in its ring.
    #[tactic(auto, using(crate::proofs::LookLemmas::saw_letter))]
    pub fn knows_letter(&self, from: u8) -> bool
        requires peer { from < ins_count self.now }
        ensures { MatchBool result (0 < length (known_from self.now from)) (known_from self.now from ≡ []) }
    {
        self.knows_letter_on(from)
    }

    /// Takes the next letter of a node from its ring. Where none is known there, it looks again.
    #[tactic(auto, using(crate::proofs::LookLemmas::takes_known))]
    pub fn take(&mut self, from: u8) -> Option<Letter>
        requires peer { from < ins_count self.old }
        ensures some { IfSome result (λ letter. (node : ℕ) → taken_from self.new node ≡ taken_from self.old node ++ if_from from (letter_seen letter) node) }
        ensures known { IfSome result (λ letter. IsPrefix (known_from self.old from) (letter_seen letter ∷ known_from self.new from)) }
        ensures none { IfNone result ((node : ℕ) → taken_from self.new node ≡ taken_from self.old node) }
        ensures empty { IfNone result ((known_from self.old from ≡ []) × (known_from self.new from ≡ [])) }
        ensures ins { (node : ℕ) → node ≢ from → in_at self.new node ≡ in_at self.old node }
        ensures outs { (node : ℕ) → out_at self.new node ≡ out_at self.old node }
        ensures ends { SameEnds self.old self.new }
    {
        self.take_on(from)
    }

    /// Takes the next letter of a node, which is known to be in its ring.
    pub fn take_next(&mut self, from: u8) -> Letter
        requires peer { from < ins_count self.old }
        requires known { 0 < length (known_from self.old from) }
        ensures taken { (node : ℕ) → taken_from self.new node ≡ taken_from self.old node ++ if_from from (letter_seen result) node }
        ensures known { known_from self.old from ≡ letter_seen result ∷ known_from self.new from }
        ensures ins { (node : ℕ) → node ≢ from → in_at self.new node ≡ in_at self.old node }
        ensures outs { (node : ℕ) → out_at self.new node ≡ out_at self.old node }
        ensures ends { SameEnds self.old self.new }
    {
        self.take_next_on(from)
    }

    /// Takes the first letter of a node that is known to be in its ring.
    pub fn take_known(&mut self, from: u8) -> Option<Letter>
        requires peer { from < ins_count self.old }
        ensures some { IfSome result (λ letter. (node : ℕ) → taken_from self.new node ≡ taken_from self.old node ++ if_from from (letter_seen letter) node) }
        ensures known { IfSome result (λ letter. known_from self.old from ≡ letter_seen letter ∷ known_from self.new from) }
        ensures none { IfNone result ((node : ℕ) → in_at self.new node ≡ in_at self.old node) }
        ensures empty { IfNone result (known_from self.old from ≡ []) }
        ensures ins { (node : ℕ) → node ≢ from → in_at self.new node ≡ in_at self.old node }
        ensures outs { (node : ℕ) → out_at self.new node ≡ out_at self.old node }
        ensures ends { SameEnds self.old self.new }
    {
        self.take_known_on(from)
    }
}

// What all lanes of a mail do.
impl Mail {
    /// Makes room for so many further letters that wait.
    ///
    /// Where none waits and there is less room, the list is made anew, so that no memory is copied that no letter was in.
    #[tactic(auto, using(crate::proofs::LookLemmas::same_mail))]
    pub fn reserve(&mut self, letters: usize) -> Result<(), AllocError>
        ensures sent { (node : ℕ) → sent_to self.new node ≡ sent_to self.old node }
        ensures given { (node : ℕ) → given_to self.new node ≡ given_to self.old node }
        ensures room { OnOk result (HasRoomFor self.new letters) }
        ensures kept { (further : ℕ) → HasRoomFor self.old further → HasRoomFor self.new further }
        ensures full { HasRoomFor self.old letters → IsOk result }
        ensures outs { (node : ℕ) → out_at self.new node ≡ out_at self.old node }
        ensures ins { (node : ℕ) → in_at self.new node ≡ in_at self.old node }
        ensures ends { SameEnds self.old self.new }
    {
        make_room(&mut self.waiting, letters)
    }

    /// Another node of which a letter is in its ring, and then known. Where letters may be known in one ring alone, it
    /// looks at that ring, and then at those of these senders, bit q for node q, in order; else at all rings in order.
    #[tactic(auto, using(crate::proofs::LookLemmas::all_looked, crate::proofs::LookLemmas::none_before, crate::proofs::LookLemmas::none_known, crate::proofs::LookLemmas::saw_letter))]
    pub fn first_sender_among(&mut self, senders: u64) -> Option<u8>
        requires few { ins_count self.old ≤ 256 }
        ensures some { IfSome result (λ from. (from < ins_count self.new) × (from ≢ self.new.me) × (0 < length (known_from self.new from))) }
        ensures first { IfSome result (λ from. (node : ℕ) → node < from → node ≢ self.new.me
            → known_from self.new node ≡ []) }
        ensures none { IfNone result ((node : ℕ) → node ≢ self.new.me → known_from self.new node ≡ []) }
        ensures taken { (node : ℕ) → taken_from self.new node ≡ taken_from self.old node }
        ensures known { (node : ℕ) → IsPrefix (known_from self.old node) (known_from self.new node) }
        ensures outs { (node : ℕ) → out_at self.new node ≡ out_at self.old node }
        ensures ends { SameEnds self.old self.new }
    {
        match self.look(senders) {
            Some(from) => Some(from as u8),
            None => None,
        }
    }

    // Looks for it, in terms of the rings.
    fn look(&mut self, senders: u64) -> Option<usize>
        ensures looked { LooksAtSome self.old.ins self.new.ins }
        ensures others { (self.new.me ≡ self.old.me) × (self.new.outs.items ≡ self.old.outs.items) × (self.new.waiting.items ≡ self.old.waiting.items) }
        ensures some { IfSome result (λ from. (from < ins_count self.new) × (from ≢ self.new.me) × Saw true (in_at self.new from)) }
        ensures first { IfSome result (λ from. SawNone from self.new.me self.new.ins) }
        ensures none { IfNone result (SawNone (ins_count self.new) self.new.me self.new.ins) }
    {
        self.ins.first_among(senders, usize::from(self.me))
    }

    /// Flushes the outbox to each node.
    #[tactic(auto, using(crate::proofs::FlushLemmas::passed_kept))]
    pub fn flush_all(&mut self)
        ensures sent { (node : ℕ) → sent_to self.new node ≡ sent_to self.old node }
        ensures given { (node : ℕ) → IsPrefix (given_to self.old node) (given_to self.new node) }
        ensures first { (node : ℕ) → length (given_to self.new node) < places_to self.new node
            → waiting_to self.new node ≡ [] }
        ensures stops { (node : ℕ) → (waiting_to self.new node ≡ []) ⊎ IsFullTo self.new node }
        ensures ins { (node : ℕ) → in_at self.new node ≡ in_at self.old node }
        ensures ends { SameEnds self.old self.new }
    {
        pass(&mut self.outs, &mut self.waiting, None);
    }
}

// What one lane of a mail does.
impl Mail {
    pub(crate) fn put_on(&mut self, to: u8, letter: Letter)
        requires peer { to < outs_count self.old }
        requires room { HasRoomFor self.old 1 }
        ensures lane { OutChanges (Puts letter) self.old self.new to }
        ensures rings { (node : ℕ) → end_at self.new node ≡ end_at self.old node }
        ensures room { (letters : ℕ) → HasRoomFor self.old (letters + 1) → HasRoomFor self.new letters }
    {
        self.waiting.push_back_reserved(Post { to, letter });
    }

    #[tactic(auto, using(crate::proofs::FlushLemmas::one_flushed, crate::proofs::FlushLemmas::passed_kept))]
    pub(crate) fn flush_on(&mut self, to: u8)
        requires { to < outs_count self.old }
        ensures lane { OutChanges Flushes self.old self.new to }
        ensures kept { KeepsSent self.old self.new }
    {
        pass(&mut self.outs, &mut self.waiting, Some(to));
    }

    pub(crate) fn has_letter_on(&mut self, from: u8) -> bool
        requires { from < ins_count self.old }
        ensures lane { InChanges Sees self.old self.new from }
        ensures value { Saw result (in_at self.new from) }
    {
        self.ins.known.alone = false;
        let lane = &mut self.ins.lanes[usize::from(from)];
        lane.has_letter()
    }

    pub(crate) fn knows_letter_on(&self, from: u8) -> bool
        requires { from < ins_count self.now }
        ensures { Saw result (in_at self.now from) }
    {
        let lane = &self.ins.lanes[usize::from(from)];
        lane.knows_letter()
    }

    pub(crate) fn take_on(&mut self, from: u8) -> Option<Letter>
        requires { from < ins_count self.old }
        ensures some { IfSome result (λ letter. InChanges (Takes letter) self.old self.new from) }
        ensures none { IfNone result (InChanges TakesNone self.old self.new from) }
    {
        self.ins.known.alone = false;
        let lane = &mut self.ins.lanes[usize::from(from)];
        lane.take()
    }

    pub(crate) fn take_next_on(&mut self, from: u8) -> Letter
        requires peer { from < ins_count self.old }
        requires known { Saw true (in_at self.old from) }
        ensures { InChanges (TakesKnown result) self.old self.new from }
    {
        self.ins.take_next(usize::from(from))
    }

    pub(crate) fn take_known_on(&mut self, from: u8) -> Option<Letter>
        requires { from < ins_count self.old }
        ensures some { IfSome result (λ letter. InChanges (TakesKnown letter) self.old self.new from) }
        ensures none { IfNone result (InChanges FindsNoLetter self.old self.new from) }
    {
        self.ins.take_known(usize::from(from))
    }
}
