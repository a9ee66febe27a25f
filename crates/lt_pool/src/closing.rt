// How a pool is taken apart again.
ghost use Rattle.std.specs.Prelude.{◌≡◌, ◌≤◌, ◌<◌, false, [], length, map, Some, slice_index_or, slice_set, IsTrue, IfOk, IfErr, vec_capacity};
ghost use Rattle.std.specs.Mem.Slots.{slots_items, slots_filled, slots_len, IsFull};
ghost use mathlib.Core.Option.{some};
ghost use lib.ListN.{get_elem?};
ghost use Rattle.lt_pool.specs.Rule.{EachContinues, AllSome};

use crate::pool::{Badge, Pool};
use crate::same::Same;
use atomic_table::Closed;
use std::alloc::Global;

impl<T: Same> Pool<T> {
    /// The items of the pool, in order of their slots.
    ///
    /// Where there is no memory, the pool and the badge come back.
    pub fn close(self, badge: Badge<T>) -> Result<Vec<T>, (Pool<T>, Badge<T>)>
        requires of { badge.pool ≡ self }
        requires first { badge.number ≡ 0 }
        requires claimed { badge.claimed ≡ [] }
        requires joined { length badge.joined ≡ badge.splits }
        ensures ok { IfOk result (λ items. EachContinues T.continues self.firsts items.items) }
        ensures err { IfErr result (λ back. (back.0 ≡ self) × (back.1 ≡ badge)) }
    {
        let Ok(items) = Vec::with_capacity(self.alloc, self.table.slot_count()) else {
            return Err((self, badge));
        };
        let Pool { table, .. } = self;
        let Badge { seat, .. } = badge;
        Ok(taken_out(table.close_with(seat), items))
    }
}

// The items in the slots, in order.
fn taken_out<T: Drop>(mut closed: Closed<Option<T>, Global>, mut items: Vec<T>) -> Vec<T>
    requires full { IsFull closed.slots × AllSome (slots_items closed.slots) }
    requires room { (items.items ≡ []) × (slots_len closed.slots ≤ vec_capacity items) }
    ensures { map Some result.items ≡ slots_items closed.slots }
{
    for i in 0..closed.slot_count() {
        items.push_reserved(take_item(&mut closed, i));
    }
    closed.free();
    items
}

// Takes the item of slot i out.
fn take_item<T: Drop>(closed: &mut Closed<Option<T>, Global>, i: usize) -> T
    requires inside { i < slots_len closed.old.slots }
    requires full { IsTrue (slice_index_or (slots_filled closed.old.slots) i false) }
    requires item { (item : T) × (get_elem? (slots_items closed.old.slots) i ≡ some (Some item)) }
    ensures item { get_elem? (slots_items closed.old.slots) i ≡ some (Some result) }
    ensures items { slots_items closed.new.slots ≡ slots_items closed.old.slots }
    ensures filled { slots_filled closed.new.slots ≡ slice_set (slots_filled closed.old.slots) i false }
    ensures count { slots_len closed.new.slots ≡ slots_len closed.old.slots }
{
    match closed.take(i) {
        Some(item) => item,
        None => unreachable!(),
    }
}
