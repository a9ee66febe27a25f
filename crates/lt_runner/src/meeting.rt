// What runners of one script do together, while none of them is at work.
ghost use Rattle.std.specs.Prelude.{◌≡◌, ◌≢◌, ◌<◌, ◌++◌, ℕ, [], None, IfSome, IfNone, length};
ghost use Rattle.lt_mail.specs.Words.{ins_count, out_at, in_at, known_from, sent_to, taken_from, given_to, waiting_to, SameEnds, AreLinkedAt};
ghost use Rattle.lt_runner.specs.Choices.{next_choice, misfit};
ghost use Rattle.lt_runner.specs.Kept.{RunnerInvariant, AreBeside, HasMet, FlushesTo, LooksTo, LooksFrom, HasFetched, Fetches, Knows, NoneKnown, is_move};
ghost use Rattle.lt_spec.specs.NodeMove.{node_waits};
ghost use Rattle.lt_node.specs.NodeData.{state_of};

use crate::choice::{Choice, choose};
use crate::parts::{Hand, Parts};
use crate::readying::hold_next;
use crate::runner::Runner;
use lt_mail::{Mail, beside, beside_at};

impl Runner {
    /// Looks at the ring to another runner from both of its ends; a call of the other one looks at the ring back.
    #[tactic(auto, using(crate::proofs::Fetched::linked))]
    pub fn meet(&mut self, taker: &mut Runner)
        requires { AreBeside self.old taker.old }
        ensures sender { LooksTo taker.old.node.me self.old self.new }
        ensures taker { LooksFrom self.old.node.me taker.old taker.new }
        ensures met { HasMet self.old.node.me taker.old.node.me self.new taker.new }
        ensures flushed { FlushesTo self.old.node.me taker.old.node.me self.new taker.new }
    {
        beside(
            &mut self.parts.as_mut().mail,
            &mut taker.parts.as_mut().mail,
        );
    }

    /// Looks from both of its ends at the ring to a node whose far end is in a mail that no runner has.
    pub fn meet_taker(&mut self, far: &mut Mail, to: u8)
        requires { AreLinkedAt to to self.old.mail far.old }
        ensures looks { LooksTo to self.old self.new }
        ensures far_ends { SameEnds far.old far.new }
        ensures far_outs { (node : ℕ) → out_at far.new node ≡ out_at far.old node }
        ensures far_taken { (node : ℕ) → taken_from far.new node ≡ taken_from far.old node }
        ensures far_others { (node : ℕ) → node ≢ to → in_at far.new node ≡ in_at far.old node }
        ensures whole { taken_from far.new to ++ known_from far.new to ≡ given_to self.new.mail to }
        ensures moves { known_from far.new to ≡ [] → waiting_to self.new.mail to ≡ [] }
    {
        beside_at(&mut self.parts.as_mut().mail, far, to, to);
    }

    /// The same for the ring from a node.
    pub fn meet_sender(&mut self, far: &mut Mail, from: u8)
        requires { AreLinkedAt from from far.old self.old.mail }
        ensures looks { LooksFrom from self.old self.new }
        ensures far_ends { SameEnds far.old far.new }
        ensures far_ins { (node : ℕ) → in_at far.new node ≡ in_at far.old node }
        ensures far_sent { (node : ℕ) → sent_to far.new node ≡ sent_to far.old node }
        ensures far_others { (node : ℕ) → node ≢ from → out_at far.new node ≡ out_at far.old node }
        ensures whole { taken_from self.new.mail from ++ known_from self.new.mail from ≡ given_to far.new from }
        ensures moves { known_from self.new.mail from ≡ [] → waiting_to far.new from ≡ [] }
    {
        beside_at(far, &mut self.parts.as_mut().mail, from, from);
    }

    /// Takes a letter that is known to be in a ring, where none is in hand.
    pub fn fetch(&mut self)
        ensures seen { Fetches self.old self.new }
        ensures hand { HasFetched self.new }
    {
        self.parts.as_mut().fetch();
    }

    /// Whether it shows a move.
    pub fn has_move(&self) -> bool
        ensures { result ≡ is_move (next_choice self.now) }
    {
        !matches!(choose(&self.parts), Choice::Nothing)
    }

    /// The node that the letter in hand came from, where it doesn't fit; such a letter is never taken, and no other one
    /// after it.
    pub fn misfit(&self) -> Option<u8>
        ensures { result ≡ misfit self.now }
    {
        match &self.parts.hand {
            Some(hand) if !self.parts.node.fits(&hand.letter) => Some(hand.from),
            _ => None,
        }
    }

    /// Whether the client waits at this runner's node.
    pub fn waits(&self, client: u16) -> bool
        ensures { result ≡ node_waits self.now.node.script (state_of self.now.node) client }
    {
        self.parts.node.waits(client)
    }
}

impl Parts {
    // Takes a letter that is known to be in a ring, where none is in hand.
    fn fetch(&mut self)
        requires { RunnerInvariant self.old }
        ensures kept { RunnerInvariant self.new }
        ensures seen { Fetches self.old self.new }
        ensures hand { HasFetched self.new }
    {
        if self.hand.is_none() {
            let me = self.mail.node();
            let nodes = self.nodes();
            hold_known(&mut self.mail, &mut self.hand, me, nodes);
        }
    }

    // The number of nodes of the script.
    fn nodes(&self) -> u8
        ensures { result ≡ self.now.node.script.nodes }
    {
        self.node.script().nodes()
    }
}

// Takes a letter that is known to come from one of the other nodes, the first one that there is.
#[tactic(auto, using(crate::proofs::Fetched::knows_nothing))]
fn hold_known(mail: &mut Mail, hand: &mut Option<Hand>, me: u8, nodes: u8)
    requires count { ins_count mail.old ≡ nodes }
    requires empty { hand.old ≡ None }
    ensures { Knows nodes me nodes mail.old mail.new hand.new }
{
    if let Some(from) = first_known(mail, me, nodes) {
        hold_next(mail, hand, from, me, nodes);
    }
}

// The first other node of which a letter is known to come.
fn first_known(mail: &Mail, me: u8, nodes: u8) -> Option<u8>
    requires { ins_count mail.now ≡ nodes }
    ensures some { IfSome result (λ from. (from < nodes) × (from ≢ me) × (0 < length (known_from mail.now from))) }
    ensures first { IfSome result (λ from. NoneKnown from me mail.now) }
    ensures none { IfNone result (NoneKnown nodes me mail.now) }
{
    for from in 0..nodes {
        if from != me && mail.knows_letter(from) {
            return Some(from);
        }
    }
    None
}
