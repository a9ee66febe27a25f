ghost use Rattle.lt_view.specs.ViewLaws.{FindsHeld, FindsNoneHeld, HoldsByLocks};

/// What the listing of a client's locks leaves out: nothing. Who calls `first_held` from 0 on, and then from behind each set
/// that it finds, is told of each set in which the client holds a lock.
pub fn law_view()
    ensures finds { FindsHeld }
    ensures none { FindsNoneHeld }
    ensures locks { HoldsByLocks }
{}
