ghost use Rattle.std.specs.Prelude.{◌≡◌, ◌<◌, ◌+◌, ℕ, [], ◌∷◌, length, IfSome, IfNone, IsSome, remove, slice_index_or};
ghost use Rattle.std.specs.VecDeque.{deque_capacity};
ghost use Rattle.lt_desk.specs.LetterSeen.{letter_seen};
ghost use Rattle.lt_inbox.specs.Mail.{IsOldest, goes, letters_between, sent_of};

use lt_desk::{Letter, Post};
use std::collections::VecDeque;
use std::marker::Model;

/// A letter on its way.
#[derive(Drop)]
pub(crate) struct Sent {
    sender: u8,
    post: Post,
}

impl Model for Sent {
    ghost use Rattle.lt_desk.specs.LetterSeen.{letter_seen};
    ghost use Rattle.lt_spec.specs.World.{is_some_letter};
    ghost use Rattle.lt_inbox.specs.Mail.{SentData};

    ghost Value = { SentData };

    ghost view = { λ s. record { sender = s.sender; receiver = s.post.to; letter = letter_seen s.post.letter } };
}

impl Sent {
    pub(crate) fn new(sender: u8, post: Post) -> Sent
        ensures { result ≡ sent_of sender post.to (letter_seen post.letter) }
    {
        Sent { sender, post }
    }

    fn goes(&self, sender: u8, receiver: u8) -> bool
        ensures { result ≡ goes sender receiver self.now }
    {
        self.sender == sender && self.post.to == receiver
    }

    fn into_letter(self) -> Letter
        ensures { letter_seen result ≡ self.letter }
    {
        self.post.letter
    }
}

// The place of the oldest letter from the sender to the receiver.
#[tactic(auto, using(crate::proofs::Marks::first_at, crate::proofs::Marks::none_more))]
fn first_between(sent: &VecDeque<Sent>, sender: u8, receiver: u8) -> Option<usize>
    ensures first { IfSome result (IsOldest sender receiver sent.now.items) }
    ensures none { IfNone result (letters_between sender receiver sent.now.items ≡ []) }
{
    for place in 0..sent.len() {
        if sent[place].goes(sender, receiver) {
            return Some(place);
        }
    }
    None
}

/// Takes the oldest letter from the sender to the receiver.
pub(crate) fn take_first(sent: &mut VecDeque<Sent>, sender: u8, receiver: u8) -> Letter
    requires { 0 < length (letters_between sender receiver sent.old.items) }
    ensures front { letters_between sender receiver sent.old.items ≡ letter_seen result ∷ letters_between sender receiver sent.new.items }
    ensures others { (a b : ℕ) → (a ≡ sender → b ≡ receiver → ⊥) → letters_between a b sent.new.items ≡ letters_between a b sent.old.items }
    ensures count { length sent.new.items + 1 ≡ length sent.old.items }
    ensures room { deque_capacity sent.new ≡ deque_capacity sent.old }
{
    let Some(place) = first_between(sent, sender, receiver) else {
        unreachable!()
    };
    match remove_at(sent, place) {
        Some(one) => one.into_letter(),
        None => unreachable!(),
    }
}

// Takes out the letter at the place, which is the front one most often.
#[inline(always)]
fn remove_at(sent: &mut VecDeque<Sent>, place: usize) -> Option<Sent>
    requires inside { place < length sent.old.items }
    ensures some { IsSome result }
    ensures value { IfSome result (λ one. one ≡ slice_index_or sent.old.items place one) }
    ensures rest { sent.new.items ≡ remove sent.old.items place }
    ensures count { length sent.new.items + 1 ≡ length sent.old.items }
    ensures room { deque_capacity sent.new ≡ deque_capacity sent.old }
{
    if place == 0 {
        sent.pop_front()
    } else {
        sent.remove(place)
    }
}
