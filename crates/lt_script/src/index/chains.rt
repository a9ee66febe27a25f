// How the items of an index are chained by the spots of their names.
ghost use Rattle.std.specs.Prelude.{◌≡◌, ◌<◌, ◌≤◌, ◌+◌, ◌^◌, ◌-◌, ◌++◌, ◌∷◌, [], length, position, replicate, slice_index, slice_set, bit_and, IfOk, IfSome};
ghost use Rattle.std.specs.Vec.{vec_len, vec_capacity};
ghost use Rattle.std.specs.Str.{bytes_eq};
ghost use Rattle.lt_script.specs.Index.{hash_of, spot_at, AreLinked, IsIndex};

use crate::index::Named;
use std::alloc::{AllocError, Global};

/// The spot of a name with this hash.
#[inline(always)]
#[tactic(auto, using(crate::proofs::IndexLemmas::spot_inside))]
pub(super) fn spot(hash: u32, spots: usize) -> usize
    requires { 0 < spots }
    ensures spot { result ≡ bit_and hash (spots - 1) }
    ensures inside { result < spots }
{
    hash as usize & (spots - 1)
}

/// The hash of a name.
///
/// By the factor 21 the numbers from 0 to 255 behind common words have nearly all a spot of their own.
#[inline(always)]
#[tactic(auto, unfolding(crate::specs::Index::hash_of))]
pub(crate) fn hash(name: &[u8]) -> u32
    ensures { result ≡ hash_of name.now }
{
    name.iter().fold(0, |hash: u32, byte| {
        hash.wrapping_mul(21).wrapping_add(u32::from(*byte))
    })
}

/// The place of the item with this name, which has this hash.
#[inline(always)]
pub(super) fn place_of<T: Named>(
    items: &[T],
    lasts: &[u32],
    befores: &[u32],
    name: &[u8],
    hash: u32,
) -> Option<u32>
    requires index { IsIndex T.name_of items.now lasts.now befores.now }
    requires hash { hash ≡ hash_of name.now }
    ensures place { result ≡ position (λ x. bytes_eq (T.name_of x) name.now) items.now }
    ensures inside { IfSome result (λ place. place < length items.now) }
{
    let mut link = lasts[spot(hash, lasts.len())];
    while link > 0 {
        let place = link - 1;
        if items[place as usize].name() == name {
            return Some(place);
        }
        link = befores[place as usize];
    }
    None
}

/// Chains the items anew, by as many spots as `lasts` has, which none of them has yet.
pub(super) fn linked<T: Named>(items: &[T], lasts: &mut [u32], befores: &mut [u32])
    requires some { 0 < length lasts.old }
    requires none { lasts.old ≡ replicate (length lasts.old) 0 }
    requires same { length befores.old ≡ length items.now }
    requires few { length items.now ≤ 2 ^ 31 }
    ensures linked { AreLinked (spot_at T.name_of items.now (length lasts.new)) (length items.now) lasts.new befores.new }
    ensures spots { length lasts.new ≡ length lasts.old }
    ensures count { length befores.new ≡ length befores.old }
{
    for place in 0..items.len() {
        let spot = spot(hash(items[place].name()), lasts.len());
        befores[place] = lasts[spot];
        lasts[spot] = place as u32 + 1;
    }
}

/// Links a last place, whose name has this hash, to the place before it that has its spot, and the spot to it.
pub(super) fn link_last(lasts: &mut Vec<u32>, befores: &mut Vec<u32>, hash: u32)
    requires some { 0 < length lasts.old.items }
    requires room { vec_len befores.old < vec_capacity befores.old }
    requires few { length befores.old.items < 2 ^ 31 }
    ensures lasts { lasts.new.items ≡ slice_set lasts.old.items (bit_and hash (length lasts.old.items - 1))
        (length befores.old.items + 1) }
    ensures befores { befores.new.items
        ≡ befores.old.items ++ slice_index lasts.old.items (bit_and hash (length lasts.old.items - 1)) ∷ [] }
{
    let place = befores.len() as u32;
    let spot = spot(hash, lasts.len());
    befores.push_reserved(lasts[spot]);
    lasts[spot] = place + 1;
}

/// The items once more.
pub(super) fn copied<T: Named>(alloc: Global, items: &[T]) -> Result<Vec<T>, AllocError>
    ensures { IfOk result (λ copy. copy.items ≡ items.now) }
{
    let mut copy = Vec::with_capacity(alloc, items.len())?;
    for item in items {
        copy.push(item.copy())?;
    }
    Ok(copy)
}
