ghost use Rattle.std.specs.Prelude.{◌≡◌};
ghost use Rattle.lt_spec.specs.NodeMove.{family, is_related};

use lt_script::Script;

/// Whether the two sets are of one family.
pub fn is_related(script: &Script, set: u32, other: u32) -> bool
    ensures { result ≡ is_related script.now set other }
{
    family(script, set) == family(script, other)
}

// The number of the first set of the set's family; 0 of a set that the script doesn't have.
fn family(script: &Script, set: u32) -> u32
    ensures { result ≡ family script.now set }
{
    if set < script.sets() {
        script.family(set)
    } else {
        0
    }
}
