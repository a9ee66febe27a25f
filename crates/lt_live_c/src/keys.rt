// The call that tells at which set a key is.
ghost use Rattle.lt_keys.specs.Keys.{key_set as the_set};
ghost use Rattle.lt_live_c.specs.KeySets.{TellsKey};

use crate::code::{BAD_ARGUMENT, OK};
use lt_keys::key_set;

/// Tells the number of the set of a key, in any process, where the sets of keys stand behind `first` other ones: the
/// root of its family where it has no parent, and else another member of its parent's family.
#[unsafe(no_mangle)]
pub extern "C" fn lockrun_key(
    first: u32,
    families: u32,
    members: u32,
    parent: &[u8],
    key: &[u8],
    set: &mut u32,
) -> u32
    ensures { TellsKey (the_set first families members parent.now key.now) result set.old set.new }
{
    match key_set(first, families, members, parent, key) {
        Some(number) => {
            *set = number;
            OK
        }
        None => BAD_ARGUMENT,
    }
}
