use crate::telling::same;
use lt_desk::{Body, Letter, News};
use lt_mail::{Mail, beside, open};
use lt_modes::{Link, ModeSet, Stamp};
use std::alloc::{AllocError, Global};
use std::marker::Model;
use std::process::Abort;

// The mail of node 0, which sends, and that of node 1, which takes. Their ring has a place for one letter.
#[derive(Drop)]
struct Two {
    sender: Mail,
    taker: Mail,
}

impl Model for Two {
    ghost use Rattle.std.specs.Prelude.{◌≡◌, ℕ};
    ghost use Rattle.lt_mail.specs.Words.{outs_count, ins_count, AreLinked};

    ghost Value = { ℕ };

    ghost view = { λ two. 0 };

    ghost invariant = { λ two. AreLinked two.sender two.taker
        × (outs_count two.sender ≡ 2) × (ins_count two.taker ≡ 2) };
}

#[tactic(auto, using(lt_mail::proofs::LookLemmas::links_last, lt_mail::proofs::LookLemmas::ends_same))]
impl Two {
    fn new(alloc: Global) -> Result<Two, AllocError> {
        let mut mails = open(alloc, 2, 1)?;
        let sender = mails.remove(0);
        let taker = mails.remove(0);
        Ok(Two { sender, taker })
    }

    // Sends a letter with this clock.
    fn send<R: Abort>(&mut self, rt: &R, clock: u64) {
        self.sender.reserve(1).expect(rt, "memory");
        self.sender.put(1, letter_with(clock));
    }

    fn flush(&mut self) {
        self.sender.flush(1);
    }

    fn flush_all(&mut self) {
        self.sender.flush_all();
    }

    // The next letter has this clock.
    fn take<R: Abort>(&mut self, rt: &R, clock: Option<u64>) {
        same(rt, clock_of(self.taker.take(0)), clock);
    }

    // The next letter that is known has this clock.
    fn take_known<R: Abort>(&mut self, rt: &R, clock: Option<u64>) {
        same(rt, clock_of(self.taker.take_known(0)), clock);
    }

    // Whether a letter is in the ring, and is then known.
    fn has_letter<R: Abort>(&mut self, rt: &R, has: bool) {
        same(rt, self.taker.has_letter(0), has);
        same(rt, self.taker.knows_letter(0), has);
    }

    fn meet(&mut self) {
        beside(&mut self.sender, &mut self.taker);
    }
}

fn letter_with(clock: u64) -> Letter {
    let modes = ModeSet::empty();
    Letter {
        stamp: Stamp { clock, node: 0 },
        set: 0,
        link: Link { node: 0, epoch: 0 },
        body: Body::Freeze(News { number: 0, modes }),
    }
}

fn clock_of(letter: Option<Letter>) -> Option<u64> {
    Some(letter?.stamp.clock)
}

// The ring holds one letter at a time, and the outbox the others.
#[test]
fn three_letters_in_a_ring_for_one(rt: HostRuntime) {
    let mut two = Two::new(rt.alloc()).expect(&rt, "memory");
    two.send(&rt, 5);
    two.send(&rt, 6);
    two.send(&rt, 7);
    two.take(&rt, None);
    two.flush();
    two.take_known(&rt, None);
    two.take(&rt, Some(5));
    two.take(&rt, None);
    two.has_letter(&rt, false);
    two.flush_all();
    two.has_letter(&rt, true);
    two.take(&rt, Some(6));
    two.meet();
    two.take_known(&rt, Some(7));
    two.meet();
    two.take_known(&rt, None);
    two.take(&rt, None);
}
