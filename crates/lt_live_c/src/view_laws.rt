// What the calls on locks and waits, and the one that counts, say, in literals.
ghost use Rattle.lt_live_c.specs.CountingTold.{CountsTold};
ghost use Rattle.lt_live_c.specs.ViewTold.{HeldTold, LocksTold, AskedTold, BehindTold};

use lt_counts::law_counts;
use lt_view::law_view;

/// What C is told of what clients hold and wait for, and of what was counted: what follows from each code, field by
/// field.
pub fn law_view_told()
    ensures held { HeldTold }
    ensures locks { LocksTold }
    ensures asked { AskedTold }
    ensures behind { BehindTold }
    ensures counts { CountsTold }
{
    law_view();
    law_counts();
}
