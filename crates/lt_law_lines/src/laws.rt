ghost use Rattle.lt_law_lines.specs.LineLaws.{LinesKeptInRuns, LinesTellHeld, HoldingsAreLawful, LinesTellWaits, LinesTellOwners, FirstWaiterByLines};

/// The lines of a run tell what is held, which is lawful, who waits, and where each set's token went last.
pub fn law_lines_tell()
    ensures kept { LinesKeptInRuns }
    ensures held { LinesTellHeld }
    ensures lawful { HoldingsAreLawful }
    ensures waits { LinesTellWaits }
    ensures owners { LinesTellOwners }
    ensures first { FirstWaiterByLines }
{}
