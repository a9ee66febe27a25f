ghost use Rattle.std.specs.Prelude.{◌≡◌, ◌+◌, ◌<◌, ◌≤◌, ◌^◌, [], ◌∷◌, ◌++◌, Some, length, take, drop, IfOk, IsOk, OnOk};
ghost use Rattle.lt_merge.specs.Merging.{just_made, with_event, made_at, events_at};
ghost use Rattle.lt_merge.specs.Marks.{move_by, entries_of, IsLaid, events_bounds};

use lt_modes::{Event, Move, Stamp, Step};
use std::alloc::{AllocError, Global};
use std::marker::Model;
use std::ops::Range;

// A move, and the place of its first event among the events of all moves.
#[derive(Clone, Copy, Debug)]
struct Mark {
    clock: u64,
    start: u32,
    // The client of an act, or the sender of a take.
    number: u16,
    node: u8,
    takes: bool,
}

impl Mark {
    fn new(made: Move, start: u32) -> Mark
        ensures made { move_by result ≡ made }
        ensures start { result.start ≡ start }
    {
        let (takes, number) = match made.step {
            Step::Act(client) => (false, client),
            Step::Take(sender) => (true, u16::from(sender)),
        };
        Mark {
            clock: made.stamp.clock,
            start,
            number,
            node: made.stamp.node,
            takes,
        }
    }

    fn made(self) -> Move
        ensures { result ≡ move_by self }
    {
        Move {
            stamp: Stamp {
                clock: self.clock,
                node: self.node,
            },
            step: if self.takes {
                Step::Take((self.number % 256) as u8)
            } else {
                Step::Act(self.number)
            },
        }
    }
}

/// The moves of all nodes, in order, each with its events.
#[derive(Debug)]
pub struct Run {
    moves: Vec<Mark>,
    events: Vec<Event>,
}

// Written out, so that all places which let a run go call this.
impl Drop for Run {
    fn drop(self) {
        let Run { moves, events } = self;
        drop(moves);
        drop(events);
    }
}

/// The moves that one node made, in order, each with its events. They are kept as those of a run are.
pub type Log = Run;

impl Model for Run {
    ghost use Rattle.std.specs.Prelude.{◌<◌, ◌-◌, ◌^◌, min, vec_len, vec_capacity};
    ghost use Rattle.lt_merge.specs.Merging.{RunData};

    ghost Value = { RunData };

    ghost use Rattle.lt_merge.specs.Marks.{entries_of, IsLaid};

    ghost view = { λ r. record {
      entries = entries_of r.moves.items r.events.items;
      spare = min (vec_capacity r.moves) (2 ^ 32 - 1) - vec_len r.moves;
      room = min (vec_capacity r.events) (2 ^ 32 - 1) - vec_len r.events;
    } };

    ghost invariant = { λ r. (vec_len r.moves < 2 ^ 32) × (vec_len r.events < 2 ^ 32)
        × IsLaid r.moves.items (vec_len r.events) };
}

impl Run {
    pub fn new(alloc: Global) -> Run
        ensures { result.entries ≡ [] }
    {
        Run {
            moves: Vec::new(alloc),
            events: Vec::new(alloc),
        }
    }

    /// Makes a run with no moves yet, and room for so many, and for so many events. No run has room for 2^32 moves or
    /// 2^32 events: that many are refused as memory is.
    pub fn with_room(alloc: Global, moves: usize, events: usize) -> Result<Run, AllocError>
        ensures entries { IfOk result (λ run. run.entries ≡ []) }
        ensures spare { IfOk result (λ run. moves ≤ run.spare) }
        ensures room { IfOk result (λ run. events ≤ run.room) }
    {
        check_count(0, moves)?;
        check_count(0, events)?;
        Ok(Run {
            moves: Vec::with_capacity(alloc, moves)?,
            events: Vec::with_capacity(alloc, events)?,
        })
    }

    // Makes a run with no moves yet, and room for the moves of all logs, if they are fewer than 2^32.
    pub(crate) fn for_all(alloc: Global, logs: &[Log]) -> Result<Run, AllocError>
        ensures { IfOk result (λ run. run.entries ≡ []) }
    {
        let mut moves: usize = 0;
        let mut events: usize = 0;
        for log in logs {
            moves = moves.saturating_add(log.moves.len());
            events = events.saturating_add(log.events.len());
        }
        Run::with_room(alloc, moves, events)
    }

    /// Makes room for one further move with so many events, if that makes fewer than 2^32 moves, and fewer than 2^32
    /// events: that many are refused as memory is.
    #[inline(always)]
    pub fn reserve(&mut self, events: usize) -> Result<(), AllocError>
        ensures entries { self.new.entries ≡ self.old.entries }
        ensures spare { OnOk result (1 ≤ self.new.spare) }
        ensures room { OnOk result (events ≤ self.new.room) }
        ensures spare_kept { self.old.spare ≤ self.new.spare }
        ensures room_kept { self.old.room ≤ self.new.room }
        ensures few { OnOk result (length self.new.entries + 1 < 2 ^ 32) }
        ensures full { 1 ≤ self.old.spare → events ≤ self.old.room → IsOk result }
    {
        check_count(self.moves.len(), 1)?;
        check_count(self.events.len(), events)?;
        self.moves.reserve(1)?;
        self.events.reserve(events)?;
        Ok(())
    }

    /// Adds a move that has no events yet.
    pub fn push(&mut self, made: Move)
        requires spare { 0 < self.old.spare }
        ensures entries { self.new.entries ≡ self.old.entries ++ just_made made ∷ [] }
        ensures spare { self.old.spare ≤ self.new.spare + 1 }
        ensures room { self.old.room ≤ self.new.room }
        ensures few { length self.new.entries < 2 ^ 32 }
    {
        let start = self.events.len() as u32;
        self.moves.push_reserved(Mark::new(made, start));
    }

    /// Adds an event to the last move.
    pub fn add_event(&mut self, event: Event)
        requires some { 0 < length self.old.entries }
        requires room { 0 < self.old.room }
        ensures entries { self.new.entries ≡ with_event self.old.entries event }
        ensures spare { self.old.spare ≤ self.new.spare }
        ensures room { self.old.room ≤ self.new.room + 1 }
    {
        self.events.push_reserved(event);
    }

    // Adds the move at place `k` of another run, with its events, if that makes fewer than 2^32 moves and events.
    pub(crate) fn copy_move(&mut self, other: &Run, k: u32) -> Result<(), AllocError>
        requires inside { k < length other.now.entries }
        ensures { OnOk result (self.new.entries ≡ self.old.entries ++ take 1 (drop k other.now.entries)) }
    {
        let events = other.events(k);
        let start = self.events.len();
        check_count(self.moves.len(), 1)?;
        check_count(start, events.len())?;
        let mark = Mark::new(other.made(k), start as u32);
        self.moves.reserve(1)?;
        self.events.extend_from_slice(events)?;
        self.moves.push_reserved(mark);
        Ok(())
    }

    /// Drops all moves, and keeps their memory for further ones.
    pub fn clear(&mut self)
        ensures entries { self.new.entries ≡ [] }
        ensures spare { self.old.spare ≤ self.new.spare }
        ensures room { self.old.room ≤ self.new.room }
    {
        self.moves.clear();
        self.events.clear();
    }

    /// The number of moves.
    pub fn len(&self) -> u32
        ensures { result ≡ length self.now.entries }
    {
        self.moves.len() as u32
    }

    /// The move at place `k`.
    pub fn made(&self, k: u32) -> Move
        requires { k < length self.now.entries }
        ensures { made_at self.now.entries k ≡ Some result }
    {
        self.moves[k as usize].made()
    }

    /// The events of the move at place `k`.
    pub fn events(&self, k: u32) -> &[Event]
        requires { k < length self.now.entries }
        ensures { events_at self.now.entries k ≡ Some result.now }
    {
        events_of(&self.moves, &self.events, k as usize)
    }
}

// Refuses so many further ones after these, as memory is refused, where that makes 2^32 or more: moves are counted in
// 32 bits, and a mark keeps the place of an event in 32 bits.
fn check_count(count: usize, more: usize) -> Result<(), AllocError>
    requires { count < 2 ^ 32 }
    ensures few { OnOk result (count + more < 2 ^ 32) }
    ensures full { count + more < 2 ^ 32 → IsOk result }
{
    if more < (1 << 32) - count {
        Ok(())
    } else {
        Err(AllocError)
    }
}

// The events of the move at place `k`.
fn events_of<'a>(moves: &[Mark], events: &'a [Event], k: usize) -> &'a [Event]
    requires inside { k < length moves.now }
    requires laid { IsLaid moves.now (length events.now) }
    ensures { events_at (entries_of moves.now events.now) k ≡ Some result.now }
{
    let part = part_of(moves, k, events.len());
    &events[part]
}

// Where the events of the move at place `k` stand, where there are `count` events of all moves.
fn part_of(moves: &[Mark], k: usize, count: usize) -> Range<usize>
    requires inside { k < length moves.now }
    requires laid { IsLaid moves.now count }
    ensures part { events_bounds moves.now count k ≡ Some (result.start, result.end) }
    ensures ordered { result.start ≤ result.end }
    ensures within { result.end ≤ count }
{
    let start = moves[k].start as usize;
    let end = if k + 1 < moves.len() {
        moves[k + 1].start as usize
    } else {
        count
    };
    start..end
}
