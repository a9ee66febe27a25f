// Both ends of a ring at once.
ghost use Rattle.std.specs.Prelude.{◌≡◌, ◌≢◌, ◌<◌, ◌≤◌, ◌⊎◌, ℕ, [], ◌++◌, length};
ghost use mathlib.Core.List.{IsPrefix};
ghost use Rattle.lt_mail.specs.Words.{out_at, in_at, sent_to, given_to, waiting_to, taken_from, known_from, places_to, SameEnds, Both, AreLinked, AreLinkedAt, IsMet, LaneGives, Sees, LooksAgain, KnowsPlaces, KnowsLetters};
ghost use Rattle.lt_mail.specs.Passing.{OutChanges, InChanges};

use crate::mail::Mail;

// Looks at the ring from both of its ends, after which the taking end knows all letters in it.
#[tactic(auto, using(crate::proofs::BothLemmas::linked_still, crate::proofs::BothLemmas::linked_ends))]
fn meet(out: &mut Mail, into: &mut Mail, to: u8, from: u8)
    requires link { AreLinkedAt to from out.old into.old }
    ensures met { Both IsMet (out_at out.new to) (in_at into.new from) }
    ensures out { OutChanges LaneGives out.old out.new to }
    ensures into { InChanges Sees into.old into.new from }
{
    see_places(out, into, to, from);
    out.flush_on(to);
    see_letters(out, into, to, from);
}

// The sending end learns of each free place.
#[tactic(auto, using(crate::proofs::BothLemmas::linked_ends))]
fn see_places(out: &mut Mail, into: &mut Mail, to: u8, from: u8)
    requires link { AreLinkedAt to from out.old into.old }
    ensures out { OutChanges LooksAgain out.old out.new to }
    ensures into { InChanges Sees into.old into.new from }
    ensures places { Both KnowsPlaces (out_at out.new to) (in_at into.new from) }
{
    let sender = &mut out.outs[usize::from(to)];
    into.ins.known.alone = false;
    let taker = &mut into.ins.lanes[usize::from(from)];
    sender.ring.slots_beside(&mut taker.ring);
}

// The taking end learns of each letter.
#[tactic(auto, using(crate::proofs::BothLemmas::linked_ends))]
fn see_letters(out: &mut Mail, into: &mut Mail, to: u8, from: u8)
    requires link { AreLinkedAt to from out.old into.old }
    ensures out { OutChanges LooksAgain out.old out.new to }
    ensures into { InChanges Sees into.old into.new from }
    ensures letters { Both KnowsLetters (out_at out.new to) (in_at into.new from) }
{
    let sender = &mut out.outs[usize::from(to)];
    into.ins.known.alone = false;
    let taker = &mut into.ins.lanes[usize::from(from)];
    taker.ring.slots_beside(&mut sender.ring);
}

/// Looks at the ring from one node to another from both of its ends: the outbox is flushed, and then the taking end
/// knows all letters in the ring, so that it knows one where one was sent and not taken, and one at each place where
/// the outbox still has some.
pub fn beside(out: &mut Mail, into: &mut Mail)
    requires link { AreLinked out.old into.old }
    ensures sent { (node : ℕ) → sent_to out.new node ≡ sent_to out.old node }
    ensures given { IsPrefix (given_to out.old into.old.me) (given_to out.new into.old.me) }
    ensures first { length (given_to out.new into.old.me) < places_to out.new into.old.me
        → waiting_to out.new into.old.me ≡ [] }
    ensures stops { (waiting_to out.new into.old.me ≡ [])
        ⊎ (places_to out.new into.old.me ≤ length (known_from into.new out.old.me)) }
    ensures out_ends { SameEnds out.old out.new }
    ensures out_ins { (node : ℕ) → in_at out.new node ≡ in_at out.old node }
    ensures out_others { (node : ℕ) → node ≢ into.old.me → out_at out.new node ≡ out_at out.old node }
    ensures taken { (node : ℕ) → taken_from into.new node ≡ taken_from into.old node }
    ensures known { IsPrefix (known_from into.old out.old.me) (known_from into.new out.old.me) }
    ensures in_ends { SameEnds into.old into.new }
    ensures in_outs { (node : ℕ) → out_at into.new node ≡ out_at into.old node }
    ensures in_others { (node : ℕ) → node ≢ out.old.me → in_at into.new node ≡ in_at into.old node }
    ensures whole { taken_from into.new out.old.me ++ known_from into.new out.old.me ≡ given_to out.new into.old.me }
    ensures moves { known_from into.new out.old.me ≡ [] → waiting_to out.new into.old.me ≡ [] }
{
    let (to, from) = (into.me, out.me);
    beside_at(out, into, to, from);
}

/// The same for the ring at these places of the two mails, which may be the mail of a node and that of the far ends of
/// its rings.
pub fn beside_at(out: &mut Mail, into: &mut Mail, to: u8, from: u8)
    requires link { AreLinkedAt to from out.old into.old }
    ensures sent { (node : ℕ) → sent_to out.new node ≡ sent_to out.old node }
    ensures given { IsPrefix (given_to out.old to) (given_to out.new to) }
    ensures first { length (given_to out.new to) < places_to out.new to → waiting_to out.new to ≡ [] }
    ensures stops { (waiting_to out.new to ≡ []) ⊎ (places_to out.new to ≤ length (known_from into.new from)) }
    ensures out_ends { SameEnds out.old out.new }
    ensures out_ins { (node : ℕ) → in_at out.new node ≡ in_at out.old node }
    ensures out_others { (node : ℕ) → node ≢ to → out_at out.new node ≡ out_at out.old node }
    ensures taken { (node : ℕ) → taken_from into.new node ≡ taken_from into.old node }
    ensures known { IsPrefix (known_from into.old from) (known_from into.new from) }
    ensures in_ends { SameEnds into.old into.new }
    ensures in_outs { (node : ℕ) → out_at into.new node ≡ out_at into.old node }
    ensures in_others { (node : ℕ) → node ≢ from → in_at into.new node ≡ in_at into.old node }
    ensures whole { taken_from into.new from ++ known_from into.new from ≡ given_to out.new to }
    ensures moves { known_from into.new from ≡ [] → waiting_to out.new to ≡ [] }
{
    meet(out, into, to, from);
}
