ghost use Rattle.std.specs.Prelude.{◌≡◌, ◌≤◌, ◌<◌, ◌+◌, List, true, length, map, replicate, IfOk, OnOk, OnErr, IfSome, IfNone, ◌==◌, ◌&&◌, not, nat_lt};
ghost use Rattle.lt_modes.specs.declared.ask.Ask.{Ask};
ghost use Rattle.lt_modes.specs.State.{SetState, Desk, first_entry, record_of, modes_of_owed, still_owed, own_part, others};
ghost use Rattle.lt_modes.specs.Modes.{held_modes};
ghost use Rattle.lt_modes.specs.Serving.{owing};
ghost use Rattle.lt_modes.specs.Telling.{told, is_newer, stamps_of};
ghost use Rattle.lt_modes.specs.HandingOver.{settled};
ghost use Rattle.lt_table.specs.TableData.{entry_at, put_by, ask_with, told_frozen, nodes_with, AreTold, IsNextRecorded, NoRecordFrom};
ghost use Rattle.lt_table.specs.Seen.{entry_seen, spare_in};

use crate::entry::{Entry, still_told};
use crate::mask::{marked, next_bit};
use crate::pending::Pending;
use lt_modes::{Mode, ModeCounts, ModeSet, Stamp};
use std::alloc::{AllocError, Global};
use std::marker::Model;

// For so many asks at least an entry gets places, so that there is seldom too little room.
const FIRST_ASKS: u32 = 24;

/// What the desk knows of each node, by the node's number.
///
/// A node without an entry has told nothing, and what is told of it is not kept.
#[derive(Drop)]
pub struct Table {
    entries: Vec<Entry>,
    // For each mode, how many nodes have it in their record.
    counts: ModeCounts,
    // Bit x: node x, which is below 64, has a record.
    recorded: u64,
    // For so many asks more each entry has places.
    spare: u32,
    // The frozen modes that each node with a record was told, where it is known that they all were.
    told: Option<ModeSet>,
}

impl Model for Table {
    ghost use Rattle.std.specs.Prelude.{◌<◌, ◌≤◌, map, length};
    ghost use Rattle.lt_table.specs.TableData.{TableData, AreNodeCounts, AreRecorded, AreToldLast};
    ghost use Rattle.lt_table.specs.Seen.{entry_seen, spare_in};

    ghost Value = { TableData };

    ghost view = { λ t. record { entries = map entry_seen t.entries.items; spare = t.spare } };

    ghost invariant = { λ t. (length t.entries.items < 256)
        × (AreNodeCounts (map entry_seen t.entries.items) t.counts
        × ((t.spare ≤ spare_in t.entries.items)
        × (AreToldLast (map entry_seen t.entries.items) t.told × AreRecorded (map entry_seen t.entries.items) t.recorded))) };
}

impl Table {
    pub fn new(alloc: Global, nodes: u8) -> Result<Table, AllocError>
        ensures { IfOk result (λ table. table.entries ≡ replicate nodes first_entry) }
    {
        Ok(Table {
            entries: first_entries(alloc, nodes)?,
            counts: ModeCounts::new(),
            recorded: 0,
            spare: 0,
            told: None,
        })
    }

    /// The number of entries.
    pub fn nodes(&self) -> u8
        ensures { result ≡ length self.now.entries }
    {
        self.entries.len() as u8
    }

    /// For how many asks more each entry has places, at least.
    pub fn spare(&self) -> u32
        ensures { result ≡ self.now.spare }
    {
        self.spare
    }

    /// Makes room for so many further owed asks in each entry.
    pub fn reserve(&mut self, asks: u32) -> Result<(), AllocError>
        ensures entries { self.new.entries ≡ self.old.entries }
        ensures spare { OnOk result (asks ≤ self.new.spare) }
        ensures kept { self.old.spare ≤ self.new.spare }
        ensures full { OnErr result (self.old.spare < asks) }
    {
        if self.spare < asks {
            self.spare = reserve(&mut self.entries, asks.max(FIRST_ASKS))?;
        }
        Ok(())
    }

    /// The record of a node: the modes that it reported, and those of its owed asks.
    pub fn rec(&self, node: u8) -> ModeSet
        ensures { result ≡ record_of (entry_at self.now.entries node) }
    {
        record_at(self.entries.as_slice(), usize::from(node))
    }

    /// What counts of all nodes but this one: their records, and for node `me` its own part.
    #[inline(always)]
    pub fn others(&self, node: u8, me: u8, own: ModeSet) -> ModeSet
        ensures { (s : SetState) (desk : Desk) → desk.entries ≡ self.now.entries → own_part me s desk ≡ own
            → result ≡ others me s desk node }
    {
        let at_node = self.rec(node);
        if self.counts_apart(me, node) {
            self.counts.beyond(at_node, self.rec(me)).union(own)
        } else {
            self.counts.beyond(at_node, ModeSet::empty())
        }
    }

    // Whether node `me` is another node than this one, and has an entry.
    fn counts_apart(&self, me: u8, node: u8) -> bool
        ensures { result ≡ (not (me == node) && nat_lt me (length self.now.entries)) }
    {
        me != node && me < self.nodes()
    }

    /// The number of nodes whose record has the mode.
    pub fn nodes_with(&self, mode: Mode) -> u32
        ensures { result ≡ nodes_with mode self.now.entries }
    {
        self.counts.get(mode)
    }

    /// The first node from this number on that has a record.
    pub fn next_recorded(&self, from: u8) -> Option<u8>
        requires { length self.now.entries ≤ 64 }
        ensures some { IfSome result (IsNextRecorded self.now.entries from) }
        ensures none { IfNone result (NoRecordFrom self.now.entries from) }
    {
        next_bit(self.recorded, from)
    }

    /// Applies a tell of a node; false where it isn't newer than the last one.
    pub fn tell(&mut self, node: u8, modes: ModeSet, pending: &Pending, stamp: Stamp) -> bool
        ensures answer { result ≡ is_newer stamp (entry_at self.old.entries node).told_at }
        ensures entries { self.new.entries
            ≡ put_by node (told (record { node = node; modes = modes; pending = pending.now; stamp = stamp })) self.old.entries }
        ensures spare { self.old.spare ≤ self.new.spare }
    {
        let x = usize::from(node);
        let newer = stamp.is_newer(told_at(self.entries.as_slice(), x));
        if x < self.entries.len() {
            let entry = &mut self.entries[x];
            let before = entry.record();
            entry.tell(modes, pending, stamp);
            let after = entry.record();
            self.told = still_told(self.told, after, entry.frozen_told);
            self.counts = self.counts.shifted(before, after);
            self.recorded = marked(self.recorded, node, !after.is_empty());
        }
        newer
    }

    /// What is known of each node, by its number.
    pub fn entries(&self) -> &[Entry]
        ensures { map entry_seen result.now ≡ self.now.entries }
    {
        &self.entries
    }

    /// From now on this is known of the node.
    pub fn set(&mut self, node: u8, entry: Entry)
        ensures { self.new.entries ≡ put_by node (λ known. entry_seen entry) self.old.entries }
    {
        let x = usize::from(node);
        if x < self.entries.len() {
            let place = &mut self.entries[x];
            let before = place.record();
            *place = entry;
            let after = place.record();
            self.told = None;
            self.counts = self.counts.shifted(before, after);
            self.recorded = marked(self.recorded, node, !after.is_empty());
            self.spare = 0;
        }
    }

    /// The node owes word of a copy for the ask with this stamp and mode.
    pub fn owe(&mut self, node: u8, stamp: Stamp, mode: Mode)
        requires { 0 < self.old.spare }
        ensures entries { self.new.entries ≡ put_by node (owing (ask_with stamp mode)) self.old.entries }
        ensures spare { self.old.spare ≤ self.new.spare + 1 }
    {
        let x = usize::from(node);
        if x < self.entries.len() {
            let entry = &mut self.entries[x];
            let before = entry.record();
            entry.owe(stamp, mode);
            let after = entry.record();
            self.told = still_told(self.told, after, entry.frozen_told);
            self.counts = self.counts.shifted(before, after);
            self.recorded = marked(self.recorded, node, !after.is_empty());
            self.spare -= 1;
        }
    }

    /// The modes of the node's owed asks that are unanswered, where these are the stamps of the unanswered ones.
    pub fn owed_in(&self, node: u8, pending: &Pending) -> ModeSet
        ensures { (asks : List Ask) → stamps_of asks ≡ pending.now
            → result ≡ modes_of_owed (still_owed asks (entry_at self.now.entries node).owed) }
    {
        owed_at(self.entries.as_slice(), usize::from(node), pending)
    }

    /// The modes that the node was last told to be frozen.
    pub fn frozen_told(&self, node: u8) -> ModeSet
        ensures { result ≡ (entry_at self.now.entries node).frozen_told }
    {
        match self.entries.get(usize::from(node)) {
            Some(entry) => entry.frozen_told,
            None => ModeSet::empty(),
        }
    }

    /// The node was told that these modes are frozen.
    pub fn tell_frozen(&mut self, node: u8, modes: ModeSet)
        ensures { self.new ≡ record self.old { entries = put_by node (told_frozen modes) self.old.entries } }
    {
        let x = usize::from(node);
        if x < self.entries.len() {
            let entry = &mut self.entries[x];
            entry.tell_frozen(modes);
            let known = entry.record();
            self.told = still_told(self.told, known, modes);
        }
    }

    /// Whether it is known that each node with a record was told these frozen modes.
    pub fn all_told(&self, modes: ModeSet) -> bool
        ensures { result ≡ true → AreTold modes self.now.entries }
    {
        match self.told {
            Some(told) => told.same(modes),
            None => false,
        }
    }

    /// From now on it is known that each node with a record was told these frozen modes.
    pub fn note_told(&mut self, modes: ModeSet)
        requires { AreTold modes self.old.entries }
        ensures { self.new ≡ self.old }
    {
        self.told = Some(modes);
    }

    /// What the node tells of itself as it hands the desk over: its modes, and the stamps of its unanswered asks.
    pub fn settle(&mut self, node: u8, modes: ModeSet, pending: &Pending, stamp: Stamp)
        ensures entries { (s : SetState) → held_modes s.held ≡ modes → stamps_of s.pending ≡ pending.now
            → self.new.entries ≡ put_by node (settled stamp s) self.old.entries }
        ensures spare { self.old.spare ≤ self.new.spare }
    {
        let x = usize::from(node);
        if x < self.entries.len() {
            let entry = &mut self.entries[x];
            let before = entry.record();
            entry.settle(modes, pending, stamp);
            let after = entry.record();
            self.told = still_told(self.told, after, entry.frozen_told);
            self.counts = self.counts.shifted(before, after);
            self.recorded = marked(self.recorded, node, !after.is_empty());
        }
    }
}

fn record_at(entries: &[Entry], x: usize) -> ModeSet
    ensures { result ≡ record_of (entry_at (map entry_seen entries.now) x) }
{
    match entries.get(x) {
        Some(entry) => entry.record(),
        None => ModeSet::empty(),
    }
}

fn owed_at(entries: &[Entry], x: usize, pending: &Pending) -> ModeSet
    ensures { (asks : List Ask) → stamps_of asks ≡ pending.now
        → result ≡ modes_of_owed (still_owed asks (entry_at (map entry_seen entries.now) x).owed) }
{
    match entries.get(x) {
        Some(entry) => entry.owed_in(pending),
        None => ModeSet::empty(),
    }
}

fn told_at(entries: &[Entry], x: usize) -> Stamp
    ensures { result ≡ (entry_at (map entry_seen entries.now) x).told_at }
{
    match entries.get(x) {
        Some(entry) => entry.told_at,
        None => Stamp { clock: 0, node: 0 },
    }
}

fn first_entries(alloc: Global, nodes: u8) -> Result<Vec<Entry>, AllocError>
    ensures entries { IfOk result (λ es. map entry_seen es.items ≡ replicate nodes first_entry) }
    ensures length { IfOk result (λ es. length es.items ≡ nodes) }
{
    let mut entries = Vec::new(alloc);
    for _node in 0..nodes {
        entries.push(Entry::new(alloc))?;
    }
    Ok(entries)
}

// Makes room for so many asks more in each entry; answers for how many there is room then.
fn reserve(entries: &mut Vec<Entry>, asks: u32) -> Result<u32, AllocError>
    ensures entries { map entry_seen entries.new.items ≡ map entry_seen entries.old.items }
    ensures length { length entries.new.items ≡ length entries.old.items }
    ensures spare { IfOk result (λ spare. (asks ≤ spare) × (spare ≤ spare_in entries.new.items)) }
    ensures kept { spare_in entries.old.items ≤ spare_in entries.new.items }
{
    let mut least = u32::MAX;
    for x in 0..entries.len() {
        let entry = &mut entries[x];
        entry.reserve(asks)?;
        least = least.min(entry.spare());
    }
    Ok(least)
}
