// Sets of keys that C adds to those of a script's text.
ghost use Rattle.std.specs.Prelude.{◌≡◌, ◌<◌, ◌≤◌, ◌+◌, length, IfOk};
ghost use Rattle.lt_spec.specs.declared.limits.TheConstants.{MAX_SETS_OF_SERVICE};
ghost use Rattle.lt_live_c.specs.NewSets.{AddsSet, AddsSets};
ghost use Rattle.lt_live_c.specs.KeySets.{key_words, key_sets_from};

use crate::new_sets::{NewSet, add_set};
use lt_keys::key_name;
use lt_script::Script;
use std::alloc::AllocError;

/// Adds so many sets of families with so many members each; false where a name is there already.
pub fn add_key_sets(script: &mut Script, members: u32, count: u32) -> Result<bool, AllocError>
    requires room { length script.old.sets + count ≤ MAX_SETS_OF_SERVICE }
    requires members { 0 < count → 0 < members }
    ensures { IfOk result (λ added. AddsSets added (key_sets_from members 0 count) script.old script.new) }
{
    for k in 0..count {
        if !add_key_set(script, members, k)? {
            return Ok(false);
        }
    }
    Ok(true)
}

// Adds the set with this number among those of keys, as the last one; false where its name is there already.
fn add_key_set(script: &mut Script, members: u32, number: u32) -> Result<bool, AllocError>
    requires room { length script.old.sets < MAX_SETS_OF_SERVICE }
    requires members { 0 < members }
    ensures { IfOk result (λ added. AddsSet added (key_words members number) script.old script.new) }
{
    let name = key_name(number);
    let place = number % members;
    if place == 0 {
        return add_set(
            script,
            &NewSet {
                name: &name,
                parent: &[],
            },
        );
    }
    let root = key_name(number - place);
    add_set(
        script,
        &NewSet {
            name: &name,
            parent: &root,
        },
    )
}
