ghost use Rattle.std.specs.Prelude.{◌≡◌, ◌<◌, ◌≤◌, ◌^◌, ◌-◌, ◌++◌, ◌∷◌, [], None, length, position, slice_index, slice_set, IfOk, IfSome, OnOk, OnErr};
ghost use Rattle.std.specs.Str.{bytes_eq};
ghost use Rattle.lt_modes.specs.Script.{SetData, family_at};
ghost use Rattle.lt_script.specs.Index.{hash_of};
ghost use Rattle.lt_script.specs.Families.{ComesNext, linked_to};

use crate::declarations::SetDecl;
use crate::index::{Index, reserve_both};
use std::alloc::{AllocError, Global};
use std::marker::Model;

/// The sets of a script, found by their names. Those of a family are chained, each to the next one.
pub(crate) struct DeclaredSets {
    index: Index<SetDecl>,
    // For each family one more than its last set; 0 for the number of a set that isn't the first of its family.
    lasts: Vec<u32>,
    // For each set the next one of its family; 0 where it has none.
    nexts: Vec<u32>,
}

impl Model for DeclaredSets {
    ghost use Rattle.std.specs.Prelude.{List, length};
    ghost use Rattle.lt_modes.specs.Script.{SetData, family_at};
    ghost use Rattle.lt_script.specs.Families.{AreChained};

    ghost Value = { List SetData };

    ghost view = { λ s. s.index };

    ghost invariant = { λ s. AreChained (family_at s.index) (length s.index) s.lasts.items s.nexts.items };
}

// Written out, so that all places which let the sets go call this.
impl Drop for DeclaredSets {
    fn drop(self) {
        let DeclaredSets {
            index,
            lasts,
            nexts,
        } = self;
        drop(index);
        drop(lasts);
        drop(nexts);
    }
}

impl DeclaredSets {
    /// No sets.
    pub(crate) fn new(alloc: Global) -> Result<DeclaredSets, AllocError>
        ensures { IfOk result (λ sets. sets ≡ []) }
    {
        Ok(DeclaredSets {
            index: Index::new(alloc)?,
            lasts: Vec::new(alloc),
            nexts: Vec::new(alloc),
        })
    }

    /// The same sets once more.
    pub(crate) fn copy(&self, alloc: Global) -> Result<DeclaredSets, AllocError>
        ensures { IfOk result (λ sets. sets ≡ self.now) }
    {
        Ok(DeclaredSets {
            index: self.index.copy(alloc)?,
            lasts: Vec::from_slice(alloc, &self.lasts)?,
            nexts: Vec::from_slice(alloc, &self.nexts)?,
        })
    }

    /// The sets in order.
    pub(crate) fn items(&self) -> &[SetDecl]
        ensures { result.now ≡ self.now }
    {
        self.index.items()
    }

    /// The number of the set with this name, which has this hash.
    #[inline(always)]
    pub(crate) fn place(&self, name: &[u8], hash: u32) -> Option<u32>
        requires { hash ≡ hash_of name.now }
        ensures place { result ≡ position (λ (x : SetData). bytes_eq x.name name.now) self.now }
        ensures inside { IfSome result (λ place. place < length self.now) }
    {
        self.index.place(name, hash)
    }

    /// The next set of the set's family; 0 if there is none.
    pub(crate) fn next(&self, set: u32) -> u32
        requires { set < length self.now }
        ensures { ComesNext (family_at self.now) set (length self.now) result }
    {
        self.nexts[set as usize]
    }

    /// Makes room for so many further sets.
    pub(crate) fn reserve(&mut self, more: u32) -> Result<(), AllocError>
        ensures { self.new ≡ self.old }
    {
        self.index.reserve(more)?;
        reserve_both(&mut self.lasts, &mut self.nexts, more as usize)
    }

    /// Adds a last set, whose name has this hash.
    pub(crate) fn push(&mut self, set: SetDecl, hash: u32) -> Result<(), AllocError>
        requires new { position (λ (x : SetData). bytes_eq x.name set.name) self.old ≡ None }
        requires few { length self.old < 2 ^ 31 }
        requires hash { hash ≡ hash_of set.name }
        requires family { set.family ≤ length self.old }
        ensures pushed { OnOk result (self.new ≡ self.old ++ set ∷ []) }
        ensures unchanged { OnErr result (self.new ≡ self.old) }
    {
        let family = set.family() as usize;
        reserve_both(&mut self.lasts, &mut self.nexts, 1)?;
        self.index.push(set, hash)?;
        self.lasts.push_reserved(0);
        self.nexts.push_reserved(0);
        chain(&mut self.lasts, &mut self.nexts, family);
        Ok(())
    }
}

// Links the last place to the one before it in its family, and the family to it.
fn chain(lasts: &mut Vec<u32>, nexts: &mut Vec<u32>, family: usize)
    requires family { family < length lasts.old.items }
    requires last { slice_index lasts.old.items family < length nexts.old.items }
    requires few { length nexts.old.items < 2 ^ 32 }
    ensures lasts { lasts.new.items ≡ slice_set lasts.old.items family (length nexts.old.items) }
    ensures nexts { nexts.new.items
        ≡ linked_to nexts.old.items (slice_index lasts.old.items family) (length nexts.old.items - 1) }
{
    let last = lasts[family];
    let place = nexts.len() as u32 - 1;
    if last > 0 {
        nexts[last as usize - 1] = place;
    }
    lasts[family] = place + 1;
}
