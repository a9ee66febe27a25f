ghost use Rattle.lt_pool.specs.PoolLaws.{EachInOnePlace, EachNumberIsOne, EachRefusalIsTrue};

use crate::same::Same;

/// Wherever the rule of a pool's table holds, which is between any two steps, the item of each slot is at home and
/// nobody has claimed the slot, or it is in the hand of the one badge that has claimed it.
pub fn law_one_place<T: Same>()
    ensures { EachInOnePlace T.continues }
{}

/// Wherever the rule holds, the numbers of the live badges and of those that were joined into the first one all differ,
/// and are at most the number of badges that were split off it.
pub fn law_numbers<T: Same>()
    ensures { EachNumberIsOne T.continues }
{}

/// A step that the rule allows, and that adds a refused claim to its badge's history, found the word that it tells:
/// that word is still in the slot's word after the step.
pub fn law_refused_word<T: Same>()
    ensures { EachRefusalIsTrue T.continues }
{}
