// A station whose node lies in a process of its own: the rings of its runner, with their far ends.
ghost use Rattle.std.specs.Prelude.{◌≡◌, ◌≢◌, ◌++◌, ℕ, []};
ghost use Rattle.lt_mail.specs.Words.{out_at, in_at, sent_to, given_to, waiting_to, taken_from, known_from, SameEnds, AreLinkedAt};
ghost use Rattle.lt_runner.specs.Choices.{misfit};
ghost use Rattle.lt_runner.specs.Kept.{LooksTo, LooksFrom};

use crate::station::Station;
use lt_mail::Mail;

impl Station {
    /// Looks from both of its ends at the ring to a node whose far end is in this mail.
    pub fn meet_taker(&mut self, far: &mut Mail, to: u8)
        requires { AreLinkedAt to to self.old.runner.mail far.old }
        ensures looks { LooksTo to self.old.runner self.new.runner }
        ensures seats { self.new.seats ≡ self.old.seats }
        ensures far_ends { SameEnds far.old far.new }
        ensures far_outs { (node : ℕ) → out_at far.new node ≡ out_at far.old node }
        ensures far_taken { (node : ℕ) → taken_from far.new node ≡ taken_from far.old node }
        ensures far_others { (node : ℕ) → node ≢ to → in_at far.new node ≡ in_at far.old node }
        ensures whole { taken_from far.new to ++ known_from far.new to ≡ given_to self.new.runner.mail to }
        ensures moves { known_from far.new to ≡ [] → waiting_to self.new.runner.mail to ≡ [] }
    {
        self.runner.meet_taker(far, to);
    }

    /// The same for the ring from a node.
    pub fn meet_sender(&mut self, far: &mut Mail, from: u8)
        requires { AreLinkedAt from from far.old self.old.runner.mail }
        ensures looks { LooksFrom from self.old.runner self.new.runner }
        ensures seats { self.new.seats ≡ self.old.seats }
        ensures far_ends { SameEnds far.old far.new }
        ensures far_ins { (node : ℕ) → in_at far.new node ≡ in_at far.old node }
        ensures far_sent { (node : ℕ) → sent_to far.new node ≡ sent_to far.old node }
        ensures far_others { (node : ℕ) → node ≢ from → out_at far.new node ≡ out_at far.old node }
        ensures whole { taken_from self.new.runner.mail from ++ known_from self.new.runner.mail from
            ≡ given_to far.new from }
        ensures moves { known_from self.new.runner.mail from ≡ [] → waiting_to far.new from ≡ [] }
    {
        self.runner.meet_sender(far, from);
    }

    /// The node that the letter in hand came from, where it doesn't fit: then it was no letter of a node that was
    /// opened with this script.
    pub fn misfit(&self) -> Option<u8>
        ensures { result ≡ misfit self.now.runner }
    {
        self.runner.misfit()
    }
}
