// A flush that tells which rings it gave letters.
ghost use Rattle.std.specs.Prelude.{◌≡◌, ◌==◌, ◌≤◌, ◌<◌, ◌⊎◌, ℕ, [], length, count_by};
ghost use mathlib.Core.List.{IsPrefix};
ghost use Rattle.lt_mail.specs.Words.{outs_count, in_at, out_at, sent_to, given_to, waiting_to, places_to, IsFullTo, SameEnds};
ghost use Rattle.lt_mail.specs.Passing.{OutChanges, Flushes, KeepsSent};
ghost use Rattle.lt_mail.specs.Telling.{GrewIf, TellsGiven, FlushesFirst};

use crate::mail::Mail;
use lt_desk::Post;
use std::collections::VecDeque;

impl Mail {
    /// Flushes the outbox to each node, and tells which rings it gave letters, bit q for the one to node q.
    #[tactic(auto, using(crate::proofs::TellingLemmas::none_flushed, crate::proofs::TellingLemmas::each_first, crate::proofs::TellingLemmas::each_stops))]
    pub fn flush_all_telling(&mut self) -> u64
        requires few { outs_count self.old ≤ 64 }
        ensures told { TellsGiven result self.old self.new }
        ensures sent { (node : ℕ) → sent_to self.new node ≡ sent_to self.old node }
        ensures given { (node : ℕ) → IsPrefix (given_to self.old node) (given_to self.new node) }
        ensures first { (node : ℕ) → length (given_to self.new node) < places_to self.new node
            → waiting_to self.new node ≡ [] }
        ensures stops { (node : ℕ) → (waiting_to self.new node ≡ []) ⊎ IsFullTo self.new node }
        ensures ins { (node : ℕ) → in_at self.new node ≡ in_at self.old node }
        ensures ends { SameEnds self.old self.new }
    {
        if self.waiting.is_empty() {
            return 0;
        }
        self.flush_each()
    }

    // The same where some letter waits.
    fn flush_each(&mut self) -> u64
        requires { outs_count self.old ≤ 64 }
        ensures { FlushesFirst (outs_count self.old) result self.old self.new }
    {
        let mut given = 0;
        for node in 0..self.outs.len() {
            if self.flush_telling(node as u8) {
                given |= 1 << node;
            }
        }
        given
    }

    // Flushes the outbox to a node, and tells whether its ring was given letters.
    #[tactic(auto, using(crate::proofs::TellingLemmas::none_flushed_to, crate::proofs::TellingLemmas::flushed_told))]
    fn flush_telling(&mut self, to: u8) -> bool
        requires { to < outs_count self.old }
        ensures lane { OutChanges Flushes self.old self.new to }
        ensures kept { KeepsSent self.old self.new }
        ensures told { GrewIf result (given_to self.old to) (given_to self.new to) }
    {
        let waited = self.waiting_for(to);
        if waited == 0 {
            return false;
        }
        self.flush_on(to);
        self.waiting_for(to) < waited
    }

    // How many letters to a node wait for a place in its ring.
    #[tactic(auto, using(crate::proofs::TellingLemmas::count_waiting))]
    fn waiting_for(&self, to: u8) -> usize
        requires { to < outs_count self.now }
        ensures { result ≡ length (waiting_to self.now to) }
    {
        letters_for(&self.waiting, to)
    }
}

// How many of the letters are for the node.
fn letters_for(waiting: &VecDeque<Post>, node: u8) -> usize
    ensures { result ≡ count_by (λ post. post.to == node) waiting.now.items }
{
    waiting.iter().filter(|post| post.to == node).count()
}
