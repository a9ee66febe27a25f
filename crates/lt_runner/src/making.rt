// The move that a runner makes.
ghost use Rattle.std.specs.Prelude.{◌≡◌, ◌<◌, Some, None, All, length, ◌≤◌, [], ◌∷◌, ◌++◌};
ghost use Rattle.lt_law_own_lines.specs.WaitingLaws.{IsForPeer};
ghost use Rattle.lt_node.specs.NodeData.{state_of, RoomToTake};
ghost use Rattle.lt_mail.specs.Words.{outs_count};
ghost use Rattle.lt_runner.specs.declared.choice.Choice.TheVariants as choices;
ghost use Rattle.lt_runner.specs.Choices.{next_choice};
ghost use Rattle.lt_runner.specs.Kept.{RunnerInvariant, SameRunner, MovedOne, SendsOn, KeepsRings};
ghost use Rattle.lt_runner.specs.Posting.{Finished, CanPost, Posted};
ghost use Rattle.lt_runner.specs.Ready.{RunnerCanAct, RunnerCanTake, CanLog, FitsNow};
ghost use Rattle.lt_merge.specs.Merging.{with_events};

use crate::parts::{Hand, Parts};
use lt_desk::Out;
use lt_log::LongLog;
use lt_mail::Mail;
use lt_modes::{Move, Step};

impl Parts {
    /// Makes the next command of the client.
    pub(crate) fn make_act(&mut self, client: u16)
        requires kept { RunnerInvariant self.old }
        requires chosen { next_choice self.old ≡ choices.Act client }
        requires room { RunnerCanAct client self.old }
        requires place { length self.old.log.entries < self.old.limit }
        ensures kept { RunnerInvariant self.new }
        ensures same { SameRunner self.old self.new }
        ensures moved { MovedOne self.old self.new }
        ensures sent { SendsOn self.old self.new }
        ensures rings { KeepsRings self.old self.new }
    {
        self.idle = false;
        let stamp = self.node.stamp_of_act();
        self.node.act(client, &mut self.out);
        self.finish_move(Move {
            stamp,
            step: Step::Act(client),
        });
    }

    /// Takes the letter in hand.
    pub(crate) fn make_take(&mut self)
        requires kept { RunnerInvariant self.old }
        requires chosen { next_choice self.old ≡ choices.Take }
        requires room { RunnerCanTake self.old }
        requires place { length self.old.log.entries < self.old.limit }
        ensures kept { RunnerInvariant self.new }
        ensures same { SameRunner self.old self.new }
        ensures moved { MovedOne self.old self.new }
        ensures sent { SendsOn self.old self.new }
        ensures rings { KeepsRings self.old self.new }
    {
        if let Some(hand) = self.hand.take() {
            self.take_letter(hand);
        }
    }

    // Takes the letter, which is no longer in hand.
    fn take_letter(&mut self, hand: Hand)
        requires kept { RunnerInvariant (record self.old { hand = Some hand }) }
        requires empty { self.old.hand ≡ None }
        requires fits { FitsNow self.old.node.script self.old.node.me (state_of self.old.node) hand }
        requires log { CanLog self.old }
        requires room { RoomToTake self.old.node hand.letter self.old.out }
        requires place { length self.old.log.entries < self.old.limit }
        ensures kept { RunnerInvariant self.new }
        ensures same { SameRunner self.old self.new }
        ensures moved { MovedOne self.old self.new }
        ensures sent { SendsOn self.old self.new }
        ensures rings { KeepsRings self.old self.new }
    {
        self.idle = false;
        let Hand { from, letter } = hand;
        let stamp = self.node.stamp_of_take(&letter);
        self.node.take(letter, &mut self.out);
        self.finish_move(Move {
            stamp,
            step: Step::Take(from),
        });
    }

    // Puts the move into the log, and its letters into the mail.
    #[inline(always)]
    fn finish_move(&mut self, made: Move)
        requires count { outs_count self.old.mail ≡ self.old.node.script.nodes }
        requires peers { All (IsForPeer self.old.node.script.nodes self.old.node.me) self.old.out.posts }
        requires room { CanLog self.old }
        requires place { length self.old.log.entries < self.old.limit }
        ensures finished { Finished made self.old self.new }
        ensures idle { self.new.idle ≡ self.old.idle }
    {
        // There are no more letters and lines than there is room for.
        self.out.post_room();
        self.out.event_room();
        log_move(&mut self.log, &mut self.out, made, self.limit);
        let reached = post_all(
            &mut self.mail,
            &mut self.out,
            self.node.script().nodes(),
            self.node.me(),
        );
        self.reached |= reached;
    }
}

/// Puts the letters of a move into the outboxes to their nodes, and tells which these are, bit q % 64 for node q.
#[tactic(auto, using(crate::proofs::MoveLemmas::all_posted, crate::proofs::MoveLemmas::none_posted, crate::proofs::MoveLemmas::next_post))]
pub(crate) fn post_all(mail: &mut Mail, out: &mut Out, _nodes: u8, _me: u8) -> u64
    requires { CanPost _nodes _me mail.old out.old.posts }
    ensures mail { Posted out.old.posts mail.old mail.new }
    ensures out { out.new ≡ record out.old { posts = [] } }
{
    let mut reached = 0;
    while let Some(post) = out.next_letter() {
        reached |= 1 << (post.to % 64);
        mail.put(post.to, post.letter);
    }
    reached
}

// Notes the event lines of the last move.
fn note_events(log: &mut LongLog, out: &mut Out)
    requires some { log.old.gone < length log.old.entries }
    requires room { length out.old.events ≤ log.old.room }
    ensures entries { log.new.entries ≡ with_events log.old.entries out.old.events }
    ensures gone { log.new.gone ≡ log.old.gone }
    ensures out { out.new ≡ record out.old { events = [] } }
{
    while let Some(event) = out.next_event() {
        log.add_event(event);
    }
}

/// Puts a move and its event lines at the end of the log.
pub(crate) fn log_move(log: &mut LongLog, out: &mut Out, made: Move, _limit: u64)
    requires spare { 0 < log.old.spare }
    requires few { length log.old.entries < _limit }
    requires room { length out.old.events ≤ log.old.room }
    ensures log { log.new.entries ≡ log.old.entries ++ record { made = made; events = out.old.events } ∷ [] }
    ensures gone { log.new.gone ≡ log.old.gone }
    ensures out { out.new ≡ record out.old { events = [] } }
{
    log.is_within();
    log.push(made);
    note_events(log, out);
}
