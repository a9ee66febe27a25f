// Sets that C adds to those of a script's text.
ghost use Rattle.std.specs.Prelude.{◌≡◌, ◌<◌, ◌≤◌, ◌+◌, None, length, map, IfOk, IfSome, IfNone};
ghost use Rattle.lt_spec.specs.declared.limits.TheConstants.{MAX_SETS_OF_SERVICE};
ghost use Rattle.lt_live_c.specs.NewSets.{words_of_set, family_of_next, IsParent, AddsSet, AddsSets};

use lt_script::{Script, SetByName};
use std::alloc::AllocError;

/// A further set: its name, and that of its parent, which is empty if it has none.
#[repr(C)]
#[derive(Clone, Copy)]
pub struct NewSet<'a> {
    pub name: &'a [u8],
    pub parent: &'a [u8],
}

/// Adds these sets, in order; false where one of them can't be added, and then those behind it aren't.
pub fn add_sets(script: &mut Script, sets: &[NewSet<'_>]) -> Result<bool, AllocError>
    requires { length script.old.sets + length sets.now ≤ MAX_SETS_OF_SERVICE }
    ensures { IfOk result (λ added. AddsSets added (map words_of_set sets.now) script.old script.new) }
{
    for place in 0..sets.len() {
        if !add_set(script, &sets[place])? {
            return Ok(false);
        }
    }
    Ok(true)
}

/// Adds the set as the last one; false where it has no new name, or no set has its parent's.
pub fn add_set(script: &mut Script, set: &NewSet<'_>) -> Result<bool, AllocError>
    requires { length script.old.sets < MAX_SETS_OF_SERVICE }
    ensures { IfOk result (λ added. AddsSet added (words_of_set set.now) script.old script.new) }
{
    let Some(parent) = parent_of(script, set.parent) else {
        return Ok(false);
    };
    let count = script.sets();
    match script.set_by_name(set.name, parent)? {
        SetByName::Set(set) => Ok(set == count),
        _ => Ok(false),
    }
}

// The number of the set with the parent's name, if it has one; none where no set has it.
fn parent_of(script: &Script, parent: &[u8]) -> Option<Option<u32>>
    ensures some { IfSome result (IsParent script.now parent.now) }
    ensures none { IfNone result (family_of_next script.now parent.now ≡ None) }
{
    if parent.is_empty() {
        return Some(None);
    }
    match script.set_number(parent) {
        Some(set) => Some(Some(set)),
        None => None,
    }
}
