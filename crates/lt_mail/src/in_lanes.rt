// The taking ends of a node's rings, and in which of them letters are known.
ghost use Rattle.std.specs.Prelude.{◌≡◌, ◌≢◌, ◌<◌, ◌++◌, [], ◌∷◌, length, IfSome, IfNone, IfOk, OnOk, true, slice_get};
ghost use Rattle.lt_mail.specs.Known.{NoneKnownBut, AreAlone};
ghost use Rattle.lt_mail.specs.Passing.{LooksAtSome, LaneChanges, TakesKnown, FindsNoLetter, IsSender, Saw, SawNone};

use crate::lane::InLane;
use crate::looking::{first_of, first_with_letter, take_known_at, take_next_at};
use lt_desk::Letter;
use std::alloc::{AllocError, Global};
use std::marker::Model;

/// In which rings letters may be known: in those at these two places alone, or in any.
#[derive(Clone, Copy)]
pub(crate) struct Known {
    pub(crate) alone: bool,
    pub(crate) at: usize,
    pub(crate) own: usize,
}

/// The taking ends of a node's rings.
#[derive(Drop)]
pub(crate) struct InLanes {
    pub(crate) lanes: Vec<InLane>,
    pub(crate) known: Known,
}

impl Model for InLanes {
    ghost use Rattle.std.specs.Prelude.{List};
    ghost use Rattle.lt_mail.specs.declared.lane.InLane.{InLane};
    ghost use Rattle.lt_mail.specs.Known.{AreAlone};

    ghost Value = { List InLane };

    ghost view = { λ l. l.lanes.items };

    ghost invariant = { λ l. AreAlone l.known.alone l.known.at l.known.own l.lanes.items };
}

impl InLanes {
    /// None yet, with room for so many.
    pub(crate) fn with_room(alloc: Global, count: usize) -> Result<InLanes, AllocError>
        ensures { IfOk result (λ made. made ≡ []) }
    {
        Ok(InLanes {
            lanes: Vec::with_capacity(alloc, count)?,
            known: Known {
                alone: false,
                at: 0,
                own: 0,
            },
        })
    }

    pub(crate) fn push(&mut self, lane: InLane) -> Result<(), AllocError>
        ensures { OnOk result (self.new ≡ self.old ++ lane ∷ []) }
    {
        self.known.alone = false;
        self.lanes.push(lane)?;
        Ok(())
    }

    /// A ring but that from `me` in which a letter is, which is then known. Where letters may be known in one ring
    /// alone, it looks at that one, and then at those of these senders, bit q for node q, in order; else at all.
    pub(crate) fn first_among(&mut self, senders: u64, me: usize) -> Option<usize>
        ensures looked { LooksAtSome self.old self.new }
        ensures some { IfSome result (IsSender me self.new) }
        ensures first { IfSome result (λ from. SawNone from me self.new) }
        ensures none { IfNone result (SawNone (length self.new) me self.new) }
    {
        find(&mut self.lanes, &mut self.known, me, senders)
    }

    /// Takes the next letter in the ring, which is known to be there.
    #[tactic(auto, using(crate::proofs::AloneLemmas::alone_taken))]
    pub(crate) fn take_next(&mut self, from: usize) -> Letter
        requires { Saw true (slice_get self.old from) }
        ensures { LaneChanges (TakesKnown result) self.old self.new from }
    {
        take_next_at(&mut self.lanes, from)
    }

    /// Takes the first letter that is known to be in the ring.
    #[tactic(auto, using(crate::proofs::AloneLemmas::alone_taken, crate::proofs::AloneLemmas::alone_kept))]
    pub(crate) fn take_known(&mut self, from: usize) -> Option<Letter>
        requires { from < length self.old }
        ensures some { IfSome result (λ letter. LaneChanges (TakesKnown letter) self.old self.new from) }
        ensures none { IfNone result (LaneChanges FindsNoLetter self.old self.new from) }
    {
        take_known_at(&mut self.lanes, from)
    }
}

// Looks at all rings.
#[tactic(auto, using(crate::proofs::AloneLemmas::none_alone))]
fn find_first(lanes: &mut Vec<InLane>, known: &mut Known, me: usize) -> Option<usize>
    ensures alone { AreAlone known.new.alone known.new.at known.new.own lanes.new.items }
    ensures looked { LooksAtSome lanes.old.items lanes.new.items }
    ensures some { IfSome result (IsSender me lanes.new.items) }
    ensures first { IfSome result (λ from. SawNone from me lanes.new.items) }
    ensures none { IfNone result (SawNone (length lanes.new.items) me lanes.new.items) }
{
    let found = first_with_letter(lanes, me);
    *known = Known {
        alone: found.is_none(),
        at: me,
        own: me,
    };
    found
}

// Looks at all rings, or where letters are known in one ring alone at this one, and then at those of the senders.
fn find(lanes: &mut Vec<InLane>, known: &mut Known, me: usize, senders: u64) -> Option<usize>
    requires { AreAlone known.old.alone known.old.at known.old.own lanes.old.items }
    ensures alone { AreAlone known.new.alone known.new.at known.new.own lanes.new.items }
    ensures looked { LooksAtSome lanes.old.items lanes.new.items }
    ensures some { IfSome result (IsSender me lanes.new.items) }
    ensures first { IfSome result (λ from. SawNone from me lanes.new.items) }
    ensures none { IfNone result (SawNone (length lanes.new.items) me lanes.new.items) }
{
    if !known.alone || known.own != me {
        return find_first(lanes, known, me);
    }
    find_again(lanes, known, me, senders)
}

// Looks at the ring where letters may be known, and then at those of the senders.
#[tactic(auto, using(crate::proofs::AloneLemmas::looks_again))]
fn find_again(lanes: &mut Vec<InLane>, known: &mut Known, me: usize, senders: u64) -> Option<usize>
    requires alone { NoneKnownBut known.old.at me lanes.old.items }
    requires own { known.old.own ≡ me }
    ensures alone { AreAlone known.new.alone known.new.at known.new.own lanes.new.items }
    ensures looked { LooksAtSome lanes.old.items lanes.new.items }
    ensures some { IfSome result (IsSender me lanes.new.items) }
    ensures first { IfSome result (λ from. SawNone from me lanes.new.items) }
    ensures none { IfNone result (SawNone (length lanes.new.items) me lanes.new.items) }
{
    match first_of(lanes, me, known.at, senders) {
        Some(from) => {
            known.at = from;
            Some(from)
        }
        None => {
            known.at = me;
            None
        }
    }
}
