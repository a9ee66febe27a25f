// How a pool is made.
ghost use Rattle.std.specs.Prelude.{◌≡◌, ◌≤◌, length, map, replicate, Some, IfOk};
ghost use Rattle.lt_pool.specs.PoolData.{new_badge};

use crate::pool::{Badge, Pool};
use crate::same::Same;
use atomic_table::Table;
use std::alloc::{AllocError, Global};
use std::snapshot::Snapshot;

impl<T: Same> Pool<T> {
    /// A pool of these items, in order of its slots, and its first badge.
    ///
    /// Where there is no memory, the items are dropped.
    pub fn new(alloc: Global, items: Vec<T>) -> Result<(Pool<T>, Badge<T>), AllocError>
        requires { length items.items ≤ 255 }
        ensures pool { IfOk result (λ made. made.0.firsts ≡ items.items) }
        ensures badge { IfOk result (λ made. made.1 ≡ new_badge made.0 0) }
    {
        let firsts = Snapshot::of(&items);
        let words = zeros();
        let words = &words[..=items.len()];
        let slots = filled(alloc, items)?;
        let Ok((table, seat)) = Table::new(alloc, words, slots, &firsts) else {
            return Err(AllocError);
        };
        let badge = Badge {
            seat,
            number: 0,
            splits: 0,
        };
        Ok((Pool { table, alloc }, badge))
    }
}

// The words of the greatest pool, with no slot claimed.
fn zeros() -> [u64; 256]
    ensures { result ≡ replicate 256 0 }
{
    [0; 256]
}

// Each item in a slot of its own.
fn filled<T: Drop>(alloc: Global, items: Vec<T>) -> Result<Vec<Option<T>>, AllocError>
    ensures { IfOk result (λ slots. slots.items ≡ map Some items.items) }
{
    items.into_iter().map(|item| Some(item)).collect(alloc)
}
