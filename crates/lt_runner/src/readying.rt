// What a runner does before a move.
ghost use Rattle.std.specs.Prelude.{◌≡◌, ◌≢◌, ◌<◌, None, ℕ, IsOk, IfSome, IfNone, OnOk, length};
ghost use Rattle.lt_node.specs.NodeData.{state_of, RoomToTake};
ghost use Rattle.lt_node.specs.Touched.{RoomToAct};
ghost use Rattle.lt_runner.specs.declared.choice.Choice.TheVariants as choices;
ghost use Rattle.lt_runner.specs.Choices.{next_choice};
ghost use Rattle.lt_runner.specs.Ready.{RunnerCanAct, RunnerCanTake, CanLog, FitsNow};
ghost use Rattle.lt_runner.specs.Kept.{RunnerInvariant, AsSeen, IsFlushed, KnowsNoLetter, Knows};
ghost use Rattle.lt_mail.specs.Words.{out_at, ins_count, known_from};
ghost use Rattle.lt_runner.specs.Polled.{Polled, Finds};

use crate::parts::{Hand, Parts};
use lt_mail::Mail;
use std::alloc::AllocError;

impl Parts {
    /// Gives the rings what waits in the outboxes.
    pub(crate) fn flush(&mut self)
        requires { RunnerInvariant self.old }
        ensures kept { RunnerInvariant self.new }
        ensures seen { AsSeen self.old self.new }
        ensures hand { self.new.hand ≡ self.old.hand }
        ensures flushed { IsFlushed self.new }
    {
        self.mail.flush_all();
    }

    /// Takes a letter from a ring into the hand.
    pub(crate) fn fill_hand(&mut self)
        requires kept { RunnerInvariant self.old }
        requires hand { self.old.hand ≡ None }
        ensures kept { RunnerInvariant self.new }
        ensures seen { AsSeen self.old self.new }
        ensures outs { (node : ℕ) → out_at self.new.mail node ≡ out_at self.old.mail node }
        ensures rings { KnowsNoLetter self.new }
    {
        poll(
            &mut self.mail,
            &mut self.hand,
            self.senders,
            self.node.me(),
            self.node.script().nodes(),
        );
    }

    /// Gives the rings what waits in the outboxes, and takes a letter where none is in hand.
    pub(crate) fn look(&mut self)
        requires { RunnerInvariant self.old }
        ensures kept { RunnerInvariant self.new }
        ensures seen { AsSeen self.old self.new }
        ensures flushed { IsFlushed self.new }
        ensures rings { KnowsNoLetter self.new }
    {
        self.flush();
        if self.hand.is_none() {
            self.fill_hand();
        }
    }

    /// Makes room for the client's next command.
    pub(crate) fn reserve_act(&mut self, client: u16) -> Result<(), AllocError>
        requires kept { RunnerInvariant self.old }
        requires chosen { next_choice self.old ≡ choices.Act client }
        ensures kept { RunnerInvariant self.new }
        ensures seen { AsSeen self.old self.new }
        ensures hand { self.new.hand ≡ self.old.hand }
        ensures ready { OnOk result (RunnerCanAct client self.new) }
        ensures full { RunnerCanAct client self.old → IsOk result }
        ensures outs { (node : ℕ) → out_at self.new.mail node ≡ out_at self.old.mail node }
    {
        self.reserve_for_act(client)?;
        self.reserve_rest()
    }

    /// Makes room to take the letter in hand.
    pub(crate) fn reserve_take(&mut self) -> Result<(), AllocError>
        requires kept { RunnerInvariant self.old }
        requires chosen { next_choice self.old ≡ choices.Take }
        ensures kept { RunnerInvariant self.new }
        ensures seen { AsSeen self.old self.new }
        ensures ready { OnOk result (RunnerCanTake self.new) }
        ensures full { RunnerCanTake self.old → IsOk result }
        ensures outs { (node : ℕ) → out_at self.new.mail node ≡ out_at self.old.mail node }
    {
        self.reserve_for_hand()?;
        self.reserve_rest()
    }

    // Makes room in the node.
    fn reserve_for_act(&mut self, client: u16) -> Result<(), AllocError>
        requires kept { RunnerInvariant self.old }
        requires chosen { next_choice self.old ≡ choices.Act client }
        ensures kept { RunnerInvariant self.new }
        ensures seen { AsSeen self.old self.new }
        ensures hand { self.new.hand ≡ self.old.hand }
        ensures room { OnOk result (RoomToAct client self.new.node self.new.out) }
        ensures full { RoomToAct client self.old.node self.old.out → IsOk result × (self.new.out ≡ self.old.out) }
        ensures rest { (self.new.log ≡ self.old.log) × (self.new.mail ≡ self.old.mail) }
    {
        self.node.reserve(client, &mut self.out)
    }

    // Makes room in the node and in the letter.
    fn reserve_for_hand(&mut self) -> Result<(), AllocError>
        requires kept { RunnerInvariant self.old }
        requires fits { IfSome self.old.hand (FitsNow self.old.node.script self.old.node.me (state_of self.old.node)) }
        ensures kept { RunnerInvariant self.new }
        ensures seen { AsSeen self.old self.new }
        ensures room { OnOk result (IfSome self.new.hand (λ hand. RoomToTake self.new.node hand.letter self.new.out)) }
        ensures full { IfSome self.old.hand (λ hand. RoomToTake self.old.node hand.letter self.old.out) → IsOk result × (self.new.out ≡ self.old.out) }
        ensures rest { (self.new.log ≡ self.old.log) × (self.new.mail ≡ self.old.mail) }
    {
        match &mut self.hand {
            None => Ok(()),
            Some(hand) => self.node.reserve_for(&mut hand.letter, &mut self.out),
        }
    }

    // Makes room in the log and in the outboxes for all that a move may send out.
    #[inline(always)]
    fn reserve_rest(&mut self) -> Result<(), AllocError>
        requires { RunnerInvariant self.old }
        ensures kept { RunnerInvariant self.new }
        ensures seen { AsSeen self.old self.new }
        ensures hand { self.new.hand ≡ self.old.hand }
        ensures node { (self.new.node ≡ self.old.node) × (self.new.out ≡ self.old.out) }
        ensures room { OnOk result (CanLog self.new) }
        ensures full { CanLog self.old → IsOk result }
        ensures outs { (node : ℕ) → out_at self.new.mail node ≡ out_at self.old.mail node }
    {
        self.log.reserve(self.out.event_room())?;
        self.mail.reserve(self.out.post_room())
    }
}

// Takes a letter of another node into the hand, if one is in a ring. Where letters may be known in one ring alone, it
// looks at no others but those of these senders.
#[tactic(auto, using(crate::proofs::Fetched::poll_ends, crate::proofs::Fetched::poll_empty))]
fn poll(mail: &mut Mail, hand: &mut Option<Hand>, senders: u64, me: u8, nodes: u8)
    requires own { mail.old.me ≡ me }
    requires count { ins_count mail.old ≡ nodes }
    requires empty { hand.old ≡ None }
    ensures { Polled nodes me nodes mail.old mail.new hand.new }
{
    if let Some(from) = sender(mail, senders, me, nodes) {
        hold_next(mail, hand, from, me, nodes);
    }
}

// Another node of which a letter is in its ring: then one is known there.
#[tactic(auto, using(crate::proofs::Fetched::poll_finds, crate::proofs::Fetched::poll_none))]
fn sender(mail: &mut Mail, senders: u64, _me: u8, _nodes: u8) -> Option<u8>
    requires own { mail.old.me ≡ _me }
    requires count { ins_count mail.old ≡ _nodes }
    ensures some { IfSome result (Finds _nodes _me mail.old mail.new) }
    ensures none { IfNone result (Polled _nodes _me _nodes mail.old mail.new None) }
{
    mail.first_sender_among(senders)
}

/// Takes the first letter of the node, which is known to be in its ring, into the hand.
#[inline(always)]
pub(crate) fn hold_next(mail: &mut Mail, hand: &mut Option<Hand>, from: u8, _me: u8, _nodes: u8)
    requires node { (from < _nodes) × (from ≢ _me) }
    requires count { ins_count mail.old ≡ _nodes }
    requires known { 0 < length (known_from mail.old from) }
    requires empty { hand.old ≡ None }
    ensures { Knows _nodes _me _nodes mail.old mail.new hand.new }
{
    let letter = mail.take_next(from);
    *hand = Some(Hand { from, letter });
}
