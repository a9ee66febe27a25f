ghost use Rattle.std.specs.Prelude.{◌≡◌, ◌+◌, ◌*◌, ◌^◌, OnErr, ◌↔◌, ◌<◌, ◌≤◌, ◌++◌, ◌∷◌, [], List, not, IsTrue, IfOk, OnOk, length, filter, slice_index, slice_set};
ghost use Rattle.lt_spec.specs.Holdings.{Holding as AnyHolding, without_one, is_dropped};
ghost use Rattle.lt_tally.specs.LockTable.{mode_place, cell_of, HasCell, Counts};

use crate::families::is_related;
use crate::holding::Holding;
use lt_modes::{Mode, place};
use lt_script::Script;
use std::alloc::{AllocError, Global};
use std::marker::Model;

// The cells of a client's locks in one set: one for each mode.
const CELLS_OF_SET: usize = 6;

/// How many locks each client of a script holds, by set and mode: a number for each. So a call takes the same
/// time, however many locks are held.
///
/// A lock of a client or a set that the script doesn't have is not counted.
#[derive(Debug, Drop)]
pub struct Table {
    sets: u32,
    cells: Vec<usize>,
}

impl Model for Table {
    ghost use Rattle.lt_tally.specs.LockTable.{Table as TableData};

    ghost Value = { TableData };

    ghost view = { λ t. record { sets = t.sets; cells = t.cells.items } };
}

impl Table {
    /// The table of no locks.
    pub fn new(alloc: Global, script: &Script) -> Result<Table, AllocError>
        ensures { IfOk result (λ table. Counts script.now table []) }
    {
        let sets = script.sets();
        let cells = first_cell(sets, script.clients());
        Ok(Table {
            sets,
            cells: vec![in alloc; 0; cells]?,
        })
    }

    /// How many such locks are held, of a client and in a set of the script.
    pub fn count(&self, lock: Holding) -> usize
        ensures { result ≡ slice_index self.now.cells (cell_of self.now.sets lock) }
    {
        let cell = cell_of(self.sets, lock);
        self.cells.get(cell).copied().unwrap_or(0)
    }

    /// Counts one such lock more. It fails where the count would pass the largest number.
    #[inline(always)]
    pub fn add(&mut self, script: &Script, lock: Holding) -> Result<(), AllocError>
        ensures added { OnOk result ((held : List AnyHolding)
            → Counts script.now self.old held → Counts script.now self.new (held ++ lock ∷ [])) }
        ensures full { OnErr result ((held : List AnyHolding)
            → Counts script.now self.old held → 2 ^ 64 ≤ length held + 1) }
    {
        if has_cell(script, lock) {
            let Some(more) = self.count(lock).checked_add(1) else {
                return Err(AllocError);
            };
            self.put(cell_of(self.sets(), lock), more);
        }
        Ok(())
    }

    /// Counts one such lock less, if there is one.
    #[inline(always)]
    pub fn take(&mut self, script: &Script, lock: Holding)
        ensures { (held : List AnyHolding)
            → Counts script.now self.old held → Counts script.now self.new (without_one held lock) }
    {
        if has_cell(script, lock) {
            let less = self.count(lock).saturating_sub(1);
            self.put(cell_of(self.sets(), lock), less);
        }
    }

    /// Drops the client's locks in the set's family.
    pub fn drop_all(&mut self, script: &Script, client: u16, set: u32)
        ensures { (held : List AnyHolding)
            → Counts script.now self.old held
            → Counts script.now self.new (filter (λ lock. not (is_dropped script.now client set lock)) held) }
    {
        if client >= script.clients() {
            return;
        }
        let sets = self.sets();
        let first = first_cell(sets, client);
        for cell in 0..cells_of_client(sets) {
            if is_related(script, (cell / CELLS_OF_SET) as u32, set) {
                self.put(first + cell, 0);
            }
        }
    }

    // How many sets each client has cells for.
    #[inline(always)]
    fn sets(&self) -> u32
        ensures { result ≡ self.now.sets }
    {
        self.sets
    }

    // Writes the cell at this place.
    #[inline(always)]
    fn put(&mut self, place: usize, count: usize)
        ensures { self.new ≡ record self.old { cells = slice_set self.old.cells place count } }
    {
        if place < self.cells.len() {
            self.cells[place] = count;
        }
    }
}

// Whether the script has the lock's client and its set.
#[inline(always)]
fn has_cell(script: &Script, lock: Holding) -> bool
    ensures { IsTrue result ↔ HasCell script.now lock }
{
    lock.client < script.clients() && lock.set < script.sets()
}

// The place of the lock's cell.
#[inline(always)]
fn cell_of(sets: u32, lock: Holding) -> usize
    ensures { result ≡ cell_of sets lock }
{
    first_cell(sets, lock.client) + (lock.set as usize * CELLS_OF_SET + place_of(lock.mode))
}

// The place of the client's first cell: as many cells come before it as the clients before this one have.
#[inline(always)]
fn first_cell(sets: u32, client: u16) -> usize
    ensures first { result ≡ client * (sets * 6) }
    ensures within { result < 2 ^ 51 }
{
    usize::from(client) * cells_of_client(sets)
}

// How many cells a client has.
#[inline(always)]
fn cells_of_client(sets: u32) -> usize
    ensures { result ≡ sets * 6 }
{
    sets as usize * CELLS_OF_SET
}

// The place of the mode among all modes.
#[tactic(auto, unfolding(crate::specs::LockTable::mode_place))]
fn place_of(mode: Mode) -> usize
    ensures place { result ≡ mode_place mode }
    ensures within { result < 6 }
{
    place(mode)
}
