ghost use Rattle.std.specs.Prelude.{◌≡◌, ◌<◌, ◌≤◌, ◌+◌, ◌^◌, ◌++◌, ◌∷◌, [], ℕ, None, List, length, position, IfOk, IfSome, OnOk, OnErr};
ghost use Rattle.std.specs.Str.{bytes_eq};
ghost use Rattle.std.specs.Vec.{vec_len, vec_capacity};
ghost use Rattle.lt_script.specs.Index.{hash_of};

mod chains;

pub(crate) use crate::index::chains::hash;
use crate::index::chains::{copied, link_last, linked, place_of};
use std::alloc::{AllocError, Global};
use std::marker::Model;

/// What has a name.
pub(crate) trait Named: Drop {
    ghost name_of: { Self → List ℕ };

    fn name(&self) -> &[u8]
        ensures { result.now ≡ name_of self.now };

    /// The same once more.
    fn copy(&self) -> Self
        ensures { result ≡ self.now };
}

// How many spots there are at first.
const SPOTS: usize = 512;

/// Items that are found by their names, which are all apart.
///
/// Each name has one of the spots, of which there are no fewer than items. The items of a spot are chained: the spot
/// knows the last of them, and each of them the one before it. So a look-up compares a name or two.
pub(crate) struct Index<T: Named> {
    items: Vec<T>,
    // For each spot one more than the place of its last item; 0 where it has none.
    lasts: Vec<u32>,
    // For each item the same of the items before it that have its spot.
    befores: Vec<u32>,
}

impl<T: Named> Model for Index<T> {
    ghost use Rattle.std.specs.Prelude.{List};

    ghost Value = { List T };

    ghost use Rattle.lt_script.specs.Index.{IsIndex};

    ghost view = { λ x. x.items.items };

    ghost invariant = { λ x. IsIndex T.name_of x.items.items x.lasts.items x.befores.items };
}

// Written out, so that all places which let an index go call this.
impl<T: Named> Drop for Index<T> {
    fn drop(self) {
        let Index {
            items,
            lasts,
            befores,
        } = self;
        drop(items);
        drop(lasts);
        drop(befores);
    }
}

impl<T: Named> Index<T> {
    /// No items.
    pub(crate) fn new(alloc: Global) -> Result<Index<T>, AllocError>
        ensures { IfOk result (λ x. x ≡ []) }
    {
        Ok(Index {
            items: Vec::new(alloc),
            lasts: vec![in alloc; 0; SPOTS]?,
            befores: Vec::new(alloc),
        })
    }

    /// The same items once more.
    pub(crate) fn copy(&self, alloc: Global) -> Result<Index<T>, AllocError>
        ensures { IfOk result (λ x. x ≡ self.now) }
    {
        Ok(Index {
            items: copied(alloc, &self.items)?,
            lasts: Vec::from_slice(alloc, &self.lasts)?,
            befores: Vec::from_slice(alloc, &self.befores)?,
        })
    }

    /// The items in order.
    pub(crate) fn items(&self) -> &[T]
        ensures { result.now ≡ self.now }
    {
        &self.items
    }

    /// The place of the item with this name, which has this hash.
    #[inline(always)]
    pub(crate) fn place(&self, name: &[u8], hash: u32) -> Option<u32>
        requires { hash ≡ hash_of name.now }
        ensures place { result ≡ position (λ x. bytes_eq (T.name_of x) name.now) self.now }
        ensures inside { IfSome result (λ place. place < length self.now) }
    {
        place_of(&self.items, &self.lasts, &self.befores, name, hash)
    }

    /// Makes room for so many further items.
    pub(crate) fn reserve(&mut self, more: u32) -> Result<(), AllocError>
        ensures { self.new ≡ self.old }
    {
        let more = more as usize;
        let count = self.items.len() + more;
        if count > self.lasts.len() {
            self.link_by(count.next_power_of_two())?;
        }
        reserve_both(&mut self.items, &mut self.befores, more)
    }

    /// Adds a last item, whose name has this hash.
    pub(crate) fn push(&mut self, item: T, hash: u32) -> Result<(), AllocError>
        requires new { position (λ x. bytes_eq (T.name_of x) (T.name_of item)) self.old ≡ None }
        requires few { length self.old < 2 ^ 31 }
        requires hash { hash ≡ hash_of (T.name_of item) }
        ensures pushed { OnOk result (self.new ≡ self.old ++ item ∷ []) }
        ensures unchanged { OnErr result (self.new ≡ self.old) }
    {
        self.grow()?;
        reserve_both(&mut self.items, &mut self.befores, 1)?;
        link_last(&mut self.lasts, &mut self.befores, hash);
        self.items.push_reserved(item);
        Ok(())
    }

    // Makes twice as many spots, where there are as many items as spots.
    fn grow(&mut self) -> Result<(), AllocError>
        ensures { self.new ≡ self.old }
    {
        let count = self.items.len();
        if count < self.lasts.len() {
            return Ok(());
        }
        self.link_by(2 * count)
    }

    // Chains the items anew, by so many spots.
    fn link_by(&mut self, spots: usize) -> Result<(), AllocError>
        requires { 0 < spots }
        ensures { self.new ≡ self.old }
    {
        let alloc = *self.items.allocator();
        let mut lasts = vec![in alloc; 0; spots]?;
        linked(&self.items, &mut lasts, &mut self.befores);
        self.lasts = lasts;
        Ok(())
    }
}

/// Makes room for so many further items in both.
pub(crate) fn reserve_both<T, U>(
    items: &mut Vec<T>,
    others: &mut Vec<U>,
    more: usize,
) -> Result<(), AllocError>
    ensures items { items.new.items ≡ items.old.items }
    ensures others { others.new.items ≡ others.old.items }
    ensures items_room { OnOk result (vec_len items.new + more ≤ vec_capacity items.new) }
    ensures others_room { OnOk result (vec_len others.new + more ≤ vec_capacity others.new) }
{
    items.reserve(more)?;
    others.reserve(more)
}
