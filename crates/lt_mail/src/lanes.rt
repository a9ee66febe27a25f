ghost use Rattle.std.specs.Prelude.{◌≡◌, ◌+◌, ◌<◌, [], ◌∷◌, ◌++◌, length, IfSome, IfNone, MatchBool};
ghost use Rattle.rtrb.specs.Ring.{known_free, sent, SameProducer, SameConsumer, ProducerLooked};
ghost use mathlib.Core.List.{IsPrefix};
ghost use Rattle.lt_mail.specs.Words.{taken, known};

use crate::lane::{InLane, OutEnd};
use lt_desk::Letter;

impl OutEnd {
    /// Whether the ring has a place. Where none is known, it looks again.
    pub fn has_place(&mut self) -> bool
        ensures looked { ProducerLooked self.old.ring self.new.ring }
        ensures value { MatchBool result (0 < known_free self.new.ring) (known_free self.new.ring ≡ 0) }
    {
        !self.ring.is_full()
    }

    /// Gives the ring the letter.
    pub fn give(&mut self, letter: Letter)
        requires { 0 < known_free self.old.ring }
        ensures ring { SameProducer self.old.ring self.new.ring }
        ensures sent { sent self.new.ring ≡ sent self.old.ring ++ letter ∷ [] }
        ensures places { known_free self.old.ring ≡ known_free self.new.ring + 1 }
    {
        self.ring.push_reserved(letter);
    }
}

impl InLane {
    /// Whether a letter is in the ring, and then known. It looks again, whatever is known.
    pub fn has_letter(&mut self) -> bool
        ensures ring { SameConsumer self.old.ring self.new.ring }
        ensures taken { taken self.new ≡ taken self.old }
        ensures known { IsPrefix (known self.old) (known self.new) }
        ensures value { MatchBool result (0 < length (known self.new)) (known self.new ≡ []) }
    {
        self.ring.slots() > 0
    }

    /// Whether a letter is known to be in the ring.
    pub fn knows_letter(&self) -> bool
        ensures { MatchBool result (0 < length (known self.now)) (known self.now ≡ []) }
    {
        self.ring.cached_slots() > 0
    }

    /// The first letter that is known to be in the ring.
    pub fn first_known(&self) -> Option<&Letter>
        ensures some { IfSome result (λ x. IsPrefix (x.now ∷ []) (known self.now)) }
        ensures none { IfNone result (known self.now ≡ []) }
    {
        if self.ring.cached_slots() == 0 {
            None
        } else {
            Some(self.ring.peek_known())
        }
    }

    /// Takes the next letter that is in the ring.
    pub fn take(&mut self) -> Option<Letter>
        ensures ring { SameConsumer self.old.ring self.new.ring }
        ensures some { IfSome result (λ x. (taken self.new ≡ taken self.old ++ x ∷ []) × IsPrefix (known self.old) (x ∷ known self.new)) }
        ensures none { IfNone result ((taken self.new ≡ taken self.old) × (known self.old ≡ []) × (known self.new ≡ [])) }
    {
        self.ring.pop().ok()
    }

    /// Takes the next letter in the ring, which is known to be there.
    pub fn take_next(&mut self) -> Letter
        requires { 0 < length (known self.old) }
        ensures ring { SameConsumer self.old.ring self.new.ring }
        ensures taken { taken self.new ≡ taken self.old ++ result ∷ [] }
        ensures known { known self.old ≡ result ∷ known self.new }
    {
        self.ring.pop_known()
    }

    /// Takes the first letter that is known to be in the ring.
    pub fn take_known(&mut self) -> Option<Letter>
        ensures ring { SameConsumer self.old.ring self.new.ring }
        ensures some { IfSome result (λ x. (taken self.new ≡ taken self.old ++ x ∷ []) × (known self.old ≡ x ∷ known self.new)) }
        ensures none { IfNone result ((self.new ≡ self.old) × (known self.old ≡ [])) }
    {
        if self.ring.cached_slots() == 0 {
            None
        } else {
            Some(self.ring.pop_known())
        }
    }
}
