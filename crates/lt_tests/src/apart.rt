// Nodes of one service, each by itself: their letters are carried as bytes, in pieces, with faults among them.
ghost use Rattle.std.specs.Prelude.{◌≡◌, []};

use crate::live::LOCK;
use crate::telling::{holds, same};
use crate::together::read_text;
use lt_apart::{Refused, Remote, WireFault};
use lt_gen::Draws;
use lt_live::{Reply, Session, most_share};
use lt_modes::{Command, Mode};
use lt_runner::{Open, Turned};
use lt_script::Script;
use std::alloc::Global;
use std::process::Abort;

const THREE: &str = "nodes 3\n\
set s\n\
client a at 0\n\
client b at 1\n\
client c at 2\n";

const KEY: &[u8] = b"a key that all have";

const UNLOCK: Command = Command::Unlock {
    set: 0,
    mode: Mode::Write,
};

// The bytes before a letter, and the seal after it.
const AROUND: usize = 23 + 16;

// A node, what its client does next, and of each other node the bytes on their way to it, and those that came last.
#[derive(Drop)]
struct Place {
    remote: Remote,
    session: Session,
    left: u32,
    asked: bool,
    holds_lock: bool,
    coming: Vec<Vec<u8>>,
    last: Vec<Vec<u8>>,
    refusals: Refusals,
}

// How many frames were refused as ones that came before, as ones that came too early, and as damaged ones.
#[derive(Drop)]
struct Refusals {
    again: u32,
    missing: u32,
    damaged: u32,
}

fn opened<R: Abort>(
    rt: &R,
    alloc: Global,
    node: u8,
    service: u64,
    key: &[u8],
) -> (Remote, Vec<Session>) {
    let script = read_text(rt, alloc, THREE);
    holds(rt, script.commands() == 0);
    holds(rt, node < script.nodes());
    let share = most_share(&script);
    Remote::open(alloc, &script, node, service, key, 10_000, 1, share).expect(rt, "memory")
}

fn place_of<R: Abort>(rt: &R, alloc: Global, node: u8, locks: u32) -> Place {
    let (remote, mut sessions) = opened(rt, alloc, node, 7, KEY);
    holds(rt, sessions.len() == 1);
    let mut coming = Vec::new(alloc);
    let mut last = Vec::new(alloc);
    for _ in 0..remote.nodes() {
        coming.push(Vec::new(alloc)).expect(rt, "memory");
        last.push(Vec::new(alloc)).expect(rt, "memory");
    }
    Place {
        remote,
        session: sessions.remove(0),
        left: locks,
        asked: false,
        holds_lock: false,
        coming,
        last,
        refusals: Refusals {
            again: 0,
            missing: 0,
            damaged: 0,
        },
    }
}

impl Place {
    // The client polls, and locks or unlocks once it was answered.
    fn step<R: Abort>(&mut self, rt: &R) {
        match self.session.poll() {
            Some(Reply::Granted) => {
                self.asked = false;
                self.holds_lock = true;
                return;
            }
            Some(Reply::Unlocked) => {
                self.asked = false;
                self.left = self.left.saturating_sub(1);
            }
            Some(_) => holds(rt, false),
            None => {}
        }
        if !self.asked && self.left > 0 {
            self.ask(rt);
        }
    }

    fn ask<R: Abort>(&mut self, rt: &R) {
        let command = if self.holds_lock { UNLOCK } else { LOCK };
        holds(rt, self.session.left() > 0);
        holds(rt, self.session.may_submit(command));
        same(rt, self.session.submit(command), Ok(()));
        self.asked = true;
        self.holds_lock = false;
    }

    fn turn<R: Abort>(&mut self, rt: &R) {
        let turned = self.remote.turn(&Open);
        holds(rt, turned == Turned::Moved || turned == Turned::Quiet);
        same(rt, self.remote.misfit(), None);
    }

    // The frames of up to two letters for a node.
    fn give<R: Abort>(&mut self, rt: &R, alloc: Global, to: u8) -> Vec<u8> {
        let mut out = Vec::new(alloc);
        holds(rt, to < self.remote.nodes());
        let count = self.remote.take_out(to, 2, &mut out).expect(rt, "memory");
        same(rt, count == 0, out.is_empty());
        out
    }

    fn bring<R: Abort>(
        &mut self,
        rt: &R,
        alloc: Global,
        from: u8,
        bytes: &[u8],
    ) -> Result<usize, Refused> {
        holds(rt, from < self.remote.nodes());
        self.remote.bring_in(alloc, from, bytes)
    }

    // Brings a first part of what came from a node.
    fn bring_part<R: Abort>(&mut self, rt: &R, alloc: Global, from: u8, most: usize) {
        holds(rt, usize::from(from) < self.coming.len());
        let bytes = self.coming[usize::from(from)].as_slice();
        let part = Vec::from_slice(alloc, &bytes[..most.min(bytes.len())]).expect(rt, "memory");
        let used = self
            .bring(rt, alloc, from, &part)
            .expect(rt, "frames in order");
        self.drop_used(rt, alloc, from, used);
    }

    // These bytes of a node were taken in.
    fn drop_used<R: Abort>(&mut self, rt: &R, alloc: Global, from: u8, used: usize) {
        if used == 0 {
            return;
        }
        holds(rt, usize::from(from) < self.coming.len());
        let bytes = self.coming[usize::from(from)].as_slice();
        holds(rt, used <= bytes.len());
        let taken = Vec::from_slice(alloc, &bytes[..used]).expect(rt, "memory");
        let rest = Vec::from_slice(alloc, &bytes[used..]).expect(rt, "memory");
        self.coming[usize::from(from)] = rest;
        holds(rt, usize::from(from) < self.last.len());
        self.last[usize::from(from)] = taken;
    }

    // Brings what came from a node with another byte at this place: frames before it may be taken in.
    fn bring_damaged<R: Abort>(&mut self, rt: &R, alloc: Global, from: u8, at: usize, by: u8) {
        holds(rt, usize::from(from) < self.coming.len());
        let bytes = self.coming[usize::from(from)].as_slice();
        if bytes.len() <= at {
            return;
        }
        let mut damaged = Vec::from_slice(alloc, bytes).expect(rt, "memory");
        damaged[at] ^= by;
        let used = match self.bring(rt, alloc, from, &damaged) {
            Ok(used) => used,
            Err(refused) => {
                self.refusals.damaged = self.refusals.damaged.saturating_add(1);
                refused.used
            }
        };
        holds(rt, used <= at);
        self.drop_used(rt, alloc, from, used);
    }

    // The node says what it says of no session.
    fn tell(&mut self, alloc: Global) {
        let mut none: Vec<Session> = Vec::new(alloc);
        self.remote.told(&mut none);
    }

    // Brings the frames again that came last.
    fn bring_again<R: Abort>(&mut self, rt: &R, alloc: Global, from: u8) {
        holds(rt, usize::from(from) < self.last.len());
        let again = Vec::from_slice(alloc, &self.last[usize::from(from)]).expect(rt, "memory");
        if !again.is_empty() {
            same(
                rt,
                self.bring(rt, alloc, from, &again),
                refused(WireFault::Again),
            );
            self.refusals.again = self.refusals.again.saturating_add(1);
        }
    }

    // Brings what came from a node without its first frame.
    fn bring_later<R: Abort>(&mut self, rt: &R, alloc: Global, from: u8) {
        holds(rt, usize::from(from) < self.coming.len());
        let bytes = self.coming[usize::from(from)].as_slice();
        if bytes.len() < AROUND {
            return;
        }
        let size = AROUND + u32::from_le_bytes([bytes[0], bytes[1], bytes[2], bytes[3]]) as usize;
        let later = Vec::from_slice(alloc, &bytes[size.min(bytes.len())..]).expect(rt, "memory");
        let told = self.bring(rt, alloc, from, &later);
        if told == refused(WireFault::Missing) {
            self.refusals.missing = self.refusals.missing.saturating_add(1);
        } else {
            same(rt, told, Ok(0));
        }
    }
}

fn refused(fault: WireFault) -> Result<usize, Refused> {
    Err(Refused { used: 0, fault })
}

// The place of a node.
fn at<'a, R: Abort>(rt: &R, places: &'a mut [Place], node: u8) -> &'a mut Place {
    holds(rt, usize::from(node) < places.len());
    &mut places[usize::from(node)]
}

// Some of the letters of one node go on their way to another one.
fn send<R: Abort>(rt: &R, alloc: Global, places: &mut [Place], from: u8, to: u8) {
    let out = at(rt, places, from).give(rt, alloc, to);
    let place = at(rt, places, to);
    holds(rt, usize::from(from) < place.coming.len());
    place.coming[usize::from(from)]
        .extend_from_slice(&out)
        .expect(rt, "memory");
}

// One node brings in what came from another one, in pieces, with faults among them.
fn receive<R: Abort>(rt: &R, alloc: Global, draws: &mut Draws, place: &mut Place, from: u8) {
    match draws.draw(6) {
        0 => {
            let (at, by) = (draws.draw(60) as usize, 1 + draws.draw(255) as u8);
            place.bring_damaged(rt, alloc, from, at, by);
        }
        1 => place.bring_again(rt, alloc, from),
        2 => place.bring_later(rt, alloc, from),
        _ => place.bring_part(rt, alloc, from, draws.draw(200) as usize),
    }
}

// One node does something, and some of its letters are carried.
fn work<R: Abort>(rt: &R, alloc: Global, draws: &mut Draws, places: &mut [Place]) {
    let (me, other) = (draws.draw(3) as u8, draws.draw(3) as u8);
    let place = at(rt, places, me);
    place.step(rt);
    place.turn(rt);
    if me != other {
        send(rt, alloc, places, me, other);
        receive(rt, alloc, draws, at(rt, places, me), other);
    }
}

#[test]
fn letters_are_carried_as_bytes(rt: HostRuntime) {
    let alloc = rt.alloc();
    let mut places = Vec::new(alloc);
    for node in 0..3 {
        places
            .push(place_of(&rt, alloc, node, 6))
            .expect(&rt, "memory");
    }
    let mut draws = Draws::new(1);
    for _ in 0..100_000 {
        if places.iter().all(|place| place.left == 0) {
            break;
        }
        work(&rt, alloc, &mut draws, &mut places);
        let holders = places.iter().filter(|place| place.holds_lock).count();
        holds(&rt, holders <= 1);
    }
    holds(&rt, places.iter().all(|place| place.left == 0));
    holds(&rt, places.iter().any(|place| place.refusals.again > 0));
    holds(&rt, places.iter().any(|place| place.refusals.missing > 0));
    holds(&rt, places.iter().any(|place| place.refusals.damaged > 0));
    for place in &mut places {
        place.tell(alloc);
    }
}

// What node 1 gives out for another node once its client has locked.
fn first_frame<R: Abort>(rt: &R, alloc: Global, service: u64, key: &[u8], to: u8) -> Vec<u8> {
    let (mut remote, mut sessions) = opened(rt, alloc, 1, service, key);
    holds(rt, !sessions.is_empty());
    let mut session = sessions.remove(0);
    holds(rt, session.left() > 0);
    holds(rt, session.may_submit(LOCK));
    same(rt, session.submit(LOCK), Ok(()));
    same(rt, remote.turn(&Open), Turned::Moved);
    let mut out = Vec::new(alloc);
    holds(rt, to < remote.nodes());
    remote.take_out(to, 8, &mut out).expect(rt, "memory");
    holds(rt, !out.is_empty());
    out
}

// A node of this service refuses the frame for this reason.
fn refuses<R: Abort>(
    rt: &R,
    node: u8,
    service: u64,
    key: &[u8],
    from: u8,
    frame: &[u8],
    fault: WireFault,
    alloc: Global,
) {
    let (mut remote, _sessions) = opened(rt, alloc, node, service, key);
    holds(rt, from < remote.nodes());
    same(rt, remote.bring_in(alloc, from, frame), refused(fault));
    same(rt, remote.brought(from), 0);
}

#[test]
fn frames_of_others_are_refused(rt: HostRuntime) {
    let alloc = rt.alloc();
    let frame = first_frame(&rt, alloc, 7, KEY, 0);
    refuses(&rt, 0, 8, KEY, 1, &frame, WireFault::Service, alloc);
    refuses(&rt, 0, 7, b"another key", 1, &frame, WireFault::Seal, alloc);
    refuses(&rt, 2, 7, KEY, 1, &frame, WireFault::Receiver, alloc);
    refuses(&rt, 0, 7, KEY, 2, &frame, WireFault::Sender, alloc);
}

#[test]
fn a_node_ends_with_its_moves(rt: HostRuntime) {
    let alloc = rt.alloc();
    let (mut remote, mut sessions) = opened(&rt, alloc, 0, 7, KEY);
    holds(&rt, !sessions.is_empty());
    let mut session = sessions.remove(0);
    holds(&rt, session.left() > 0);
    holds(&rt, session.may_submit(LOCK));
    same(&rt, session.submit(LOCK), Ok(()));
    same(&rt, remote.turn(&Open), Turned::Moved);
    let ended = remote.into_journal(alloc).expect(&rt, "memory");
    let journal = ended.expect(&rt, "no move is forgotten");
    let moves = "move 1 0 act a\ngrant a s write\ncut 0\n";
    holds(&rt, journal.moves.as_slice() == moves.as_bytes());
}
