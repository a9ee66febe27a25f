// What waits to be sent, and what is known to come first.
ghost use Rattle.std.specs.Prelude.{◌≡◌, ◌==◌, ◌<◌, [], ◌∷◌, false, length, IfSome, IfNone, MatchBool};
ghost use Rattle.std.specs.List.{list_any};
ghost use mathlib.Core.List.{IsPrefix};
ghost use Rattle.lt_desk.specs.LetterSeen.{letter_seen};
ghost use Rattle.lt_mail.specs.Words.{in_at, outs_count, ins_count, waiting_to, known_from};
ghost use Rattle.lt_mail.specs.Passing.{Saw, IsFirst};

use crate::mail::Mail;
use lt_desk::{Letter, Post};
use std::collections::VecDeque;

impl Mail {
    /// Whether a letter to a node waits for a place in its ring.
    #[tactic(auto, using(crate::proofs::RingLemmas::some_waits))]
    pub fn waits(&self, to: u8) -> bool
        requires peer { to < outs_count self.now }
        ensures { MatchBool result (0 < length (waiting_to self.now to)) (waiting_to self.now to ≡ []) }
    {
        has_letter_for(&self.waiting, to)
    }

    /// The first letter of a node that is known to be in its ring.
    #[tactic(auto, using(crate::proofs::RingLemmas::first_seen, crate::proofs::LookLemmas::saw_letter))]
    pub fn first_known(&self, from: u8) -> Option<&Letter>
        requires peer { from < ins_count self.now }
        ensures some { IfSome result (λ letter. IsPrefix (letter_seen letter.now ∷ []) (known_from self.now from)) }
        ensures none { IfNone result (known_from self.now from ≡ []) }
    {
        self.first_known_on(from)
    }

    // The same in terms of the ring.
    fn first_known_on(&self, from: u8) -> Option<&Letter>
        requires { from < ins_count self.now }
        ensures some { IfSome result (λ letter. IsFirst letter.now (in_at self.now from)) }
        ensures none { IfNone result (Saw false (in_at self.now from)) }
    {
        let lane = &self.ins.lanes[usize::from(from)];
        lane.first_known()
    }
}

// Whether one of the letters is for the node.
fn has_letter_for(waiting: &VecDeque<Post>, node: u8) -> bool
    ensures { result ≡ list_any (λ post. post.to == node) waiting.now.items }
{
    waiting.iter().any(|post| post.to == node)
}
