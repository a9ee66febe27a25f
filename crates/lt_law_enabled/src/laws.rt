ghost use Rattle.lt_law_enabled.specs.OrderLaws.{RestsWithoutMove, ActsWhereItMay, TakesWhereMailIs, PicksFirst, PicksWithinCount};

/// Which moves of a world are enabled, and which of them stands first in the fixed order.
pub fn law_order()
    ensures rest { RestsWithoutMove }
    ensures act { ActsWhereItMay }
    ensures take { TakesWhereMailIs }
    ensures first { PicksFirst }
    ensures none { PicksWithinCount }
{}
