ghost use Rattle.std.specs.Prelude.{◌≡◌, ◌≢◌, ◌≤◌, ◌<◌, ℕ, All, length, sum_by};
ghost use Rattle.lt_core.specs.Bound.{RoomToSend};
ghost use Rattle.lt_core.specs.CoreData.{HasRoom};
ghost use Rattle.lt_modes.specs.Script.{family_at};
ghost use Rattle.lt_spec.specs.NodeMove.{related, NodeState, each_touched};
ghost use Rattle.lt_spec.specs.declared.limits.TheConstants.{MAX_COMMANDS_OF_SERVICE};
ghost use Rattle.lt_node.specs.NodeData.{SetsDo, ending, most_sent};
ghost use Rattle.lt_node.specs.Sets.{AreSetsOf, core_in, locks_by};

use crate::sets::Sets;
use lt_desk::Out;
use lt_modes::Stamp;
use lt_script::Script;

/// Ends the move in each set of the family of a set, in order; where a client is given, its locks there go first.
pub(crate) fn end_each(
    sets: &mut Sets,
    script: &Script,
    set: u32,
    dropped: Option<u16>,
    stamp: Stamp,
    out: &mut Out,
)
    requires set { set < length script.now.sets }
    requires sets { AreSetsOf script.now stamp.node sets.old }
    requires rooms { All (λ s. HasRoom 2 stamp.clock (core_in sets.old s)) (related script.now set) }
    requires send { RoomToSend (sum_by (λ s. most_sent (core_in sets.old s)) (related script.now set)) out.old }
    ensures does { (n : NodeState) → SetsDo script.now stamp.node
        (each_touched (ending dropped stamp) (related script.now set)) sets.old.cores out.old sets.new.cores out.new n }
    ensures sets { AreSetsOf script.now stamp.node sets.new }
{
    let mut next = Some(first_related(script, set));
    while let Some(k) = next {
        sets.end(k, dropped, stamp, out);
        next = script.next_related(k);
    }
}

/// How many locks a client has in the family of a set.
pub(crate) fn locks(sets: &Sets, script: &Script, set: u32, client: u16) -> u64
    requires set { set < length script.now.sets }
    requires count { length sets.now.cores ≡ length script.now.sets }
    requires few { locks_by sets.now client (related script.now set) ≤ MAX_COMMANDS_OF_SERVICE }
    ensures { result ≡ locks_by sets.now client (related script.now set) }
{
    let mut locks = 0;
    let mut next = Some(first_related(script, set));
    while let Some(k) = next {
        locks += sets.core(k).held_count(client);
        next = script.next_related(k);
    }
    locks
}

/// The first set of the family of a set.
pub(crate) fn first_related(script: &Script, set: u32) -> u32
    requires { set < length script.now.sets }
    ensures related { family_at script.now.sets result ≡ family_at script.now.sets set }
    ensures earlier { result ≤ set }
    ensures first { (k : ℕ) → k < result → family_at script.now.sets k ≢ family_at script.now.sets set }
{
    script.family(set)
}
