ghost use Rattle.std.specs.Prelude.{◌≡◌, ◌+◌, ◌≤◌, ◌<◌, ◌^◌, [], ◌∷◌, ◌++◌, Some, length, IsOk, OnOk, IfOk, IsSome, IfSome, IfNone};
ghost use Rattle.lt_merge.specs.Merging.{just_made, with_event, made_at, events_at};

use crate::history::History;
use lt_merge::Run;
use lt_modes::{Event, Move};
use std::alloc::{AllocError, Global};
use std::marker::Model;

/// The moves that one node made, in order, each with its events. The first ones can be forgotten: then only proofs know
/// them.
pub struct LongLog {
    // The runs that were dropped.
    past: History<Run>,
    // How many moves are forgotten.
    gone: u64,
    kept: Run,
}

impl Model for LongLog {
    ghost use Rattle.std.specs.Prelude.{◌++◌};
    ghost use Rattle.lt_log.specs.LogData.{LogData, CountsForgotten, past_of};

    ghost Value = { LogData };

    ghost view = { λ l. record {
      entries = past_of l.past.items ++ l.kept.entries;
      gone = l.gone;
      spare = l.kept.spare;
      room = l.kept.room;
    } };

    ghost invariant = { λ l. CountsForgotten (past_of l.past.items) l.kept.entries l.gone };
}

// Written out, so that all places which let a log go call this.
impl Drop for LongLog {
    fn drop(self) {
        let LongLog {
            past,
            gone: _,
            kept,
        } = self;
        drop(past);
        drop(kept);
    }
}

impl LongLog {
    pub fn new(alloc: Global) -> LongLog
        ensures entries { result.entries ≡ [] }
        ensures gone { result.gone ≡ 0 }
    {
        LongLog {
            past: History::new(),
            gone: 0,
            kept: Run::new(alloc),
        }
    }

    /// Makes a log with no moves yet, and room for so many, and for so many events. No log has room for 2^32 moves or
    /// 2^32 events that are kept: that many are refused as memory is.
    pub fn with_room(alloc: Global, moves: usize, events: usize) -> Result<LongLog, AllocError>
        ensures entries { IfOk result (λ log. log.entries ≡ []) }
        ensures gone { IfOk result (λ log. log.gone ≡ 0) }
        ensures spare { IfOk result (λ log. moves ≤ log.spare) }
        ensures room { IfOk result (λ log. events ≤ log.room) }
    {
        Ok(LongLog {
            past: History::new(),
            gone: 0,
            kept: Run::with_room(alloc, moves, events)?,
        })
    }

    /// The number of moves, forgotten ones too.
    #[inline(always)]
    pub fn len(&self) -> u64
        ensures { result ≡ length self.now.entries }
    {
        self.gone + u64::from(self.kept.len())
    }

    /// How many moves are forgotten.
    pub fn forgotten(&self) -> u64
        ensures { result ≡ self.now.gone }
    {
        self.gone
    }

    /// No more moves are forgotten than were made.
    #[inline(always)]
    pub fn is_within(&self)
        ensures { self.now.gone ≤ length self.now.entries }
    {
        let _ = &self.kept;
    }

    /// All moves as a run, where none is forgotten.
    pub fn into_run(self) -> Option<Run>
        ensures entries { IfSome result (λ run. run.entries ≡ self.entries) }
        ensures all { self.gone ≡ 0 → IsSome result }
        ensures forgotten { IfNone result (0 < self.gone) }
    {
        let LongLog { past, gone, kept } = self;
        drop(past);
        if gone == 0 { Some(kept) } else { None }
    }

    /// Makes room for one further move with so many events, if that makes fewer than 2^32 moves that are kept, and
    /// fewer than 2^32 events of theirs: that many are refused as memory is. If memory runs out, some room may have
    /// been made.
    #[inline(always)]
    pub fn reserve(&mut self, events: usize) -> Result<(), AllocError>
        ensures entries { self.new.entries ≡ self.old.entries }
        ensures gone { self.new.gone ≡ self.old.gone }
        ensures spare { OnOk result (1 ≤ self.new.spare) }
        ensures room { OnOk result (events ≤ self.new.room) }
        ensures spare_kept { self.old.spare ≤ self.new.spare }
        ensures room_kept { self.old.room ≤ self.new.room }
        ensures full { 1 ≤ self.old.spare → events ≤ self.old.room → IsOk result }
    {
        self.kept.reserve(events)
    }

    /// Adds a move that has no events yet.
    #[inline(always)]
    pub fn push(&mut self, made: Move)
        requires spare { 0 < self.old.spare }
        requires count { length self.old.entries + 1 < 2 ^ 64 }
        ensures entries { self.new.entries ≡ self.old.entries ++ just_made made ∷ [] }
        ensures gone { self.new.gone ≡ self.old.gone }
        ensures spare { self.old.spare ≤ self.new.spare + 1 }
        ensures room { self.old.room ≤ self.new.room }
    {
        self.kept.push(made);
    }

    /// Adds an event to the last move, which is kept.
    #[inline(always)]
    pub fn add_event(&mut self, event: Event)
        requires kept { self.old.gone < length self.old.entries }
        requires room { 0 < self.old.room }
        ensures entries { self.new.entries ≡ with_event self.old.entries event }
        ensures gone { self.new.gone ≡ self.old.gone }
        ensures spare { self.old.spare ≤ self.new.spare }
        ensures room { self.old.room ≤ self.new.room + 1 }
    {
        self.kept.add_event(event);
    }

    /// The move at place `k`, which is kept.
    pub fn made(&self, k: u64) -> Move
        requires kept { self.now.gone ≤ k }
        requires inside { k < length self.now.entries }
        ensures { made_at self.now.entries k ≡ Some result }
    {
        self.kept.made((k - self.gone) as u32)
    }

    /// The events of the move at place `k`, which is kept.
    pub fn events(&self, k: u64) -> &[Event]
        requires kept { self.now.gone ≤ k }
        requires inside { k < length self.now.entries }
        ensures { events_at self.now.entries k ≡ Some result.now }
    {
        self.kept.events((k - self.gone) as u32)
    }

    /// Forgets all moves, and keeps their memory for further ones.
    pub fn forget(&mut self)
        ensures entries { self.new.entries ≡ self.old.entries }
        ensures gone { self.new.gone ≡ length self.old.entries }
        ensures spare { self.old.spare ≤ self.new.spare }
        ensures room { self.old.room ≤ self.new.room }
    {
        self.gone = self.len();
        self.past = self.past.and(&self.kept);
        self.kept.clear();
    }
}
