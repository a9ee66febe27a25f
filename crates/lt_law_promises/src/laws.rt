ghost use Rattle.lt_model.specs.Laws.{OneToken, OnePlace, TriesInRuns};
ghost use Rattle.lt_law_invariant.specs.InvariantLaws.{KeptInRuns, LettersFitInRuns, LedInRuns, FrozenInRuns};
ghost use Rattle.lt_spec.specs.Promised.{ServedInTurn};
ghost use Rattle.lt_law_lines.specs.LineLaws.{LinesTellHeld, HoldingsAreLawful, LinesTellWaits, LinesTellOwners, FirstWaiterByLines};
ghost use Rattle.lt_law_promises.specs.Promises.{SomebodyWaits, RunsKeepPromises};

use lt_law_invariant::{law_in_turn, law_kept_in_runs};
use lt_law_lines::law_lines_tell;
use lt_model::{law_exact_try, law_one_place, law_one_token};

/// What holds after each prefix of each run of each script whose commands name what is of it.
///
/// Locks of different clients don't conflict, and what the lines tell to be held is what the nodes hold. Each set has one
/// token. Each unanswered ask stands in one place, and its client has an open `wait` line. A `try` is answered as its own
/// node can grant. An ask is served only in its turn. Where no move is left, the first waiter conflicts with a lock of
/// another client, each other ask is in the queue or led to it, holders keep frozen what the queue freezes, and somebody
/// waits exactly where the lines say so.
pub fn law_run()
    ensures lawful { HoldingsAreLawful }
    ensures held { LinesTellHeld }
    ensures one_token { OneToken }
    ensures one_place { OnePlace }
    ensures waits { LinesTellWaits }
    ensures tries { TriesInRuns }
    ensures in_turn { ServedInTurn }
    ensures first { FirstWaiterByLines }
    ensures led { LedInRuns }
    ensures frozen { FrozenInRuns }
    ensures somebody { SomebodyWaits }
    ensures owners { LinesTellOwners }
    ensures invariant { KeptInRuns }
    ensures letters { LettersFitInRuns }
{
    law_kept_in_runs();
    law_in_turn();
    law_lines_tell();
    law_one_token();
    law_one_place();
    law_exact_try();
}

/// The same of one run, as one record: what a reader of a journal may rely on.
pub fn law_promised()
    ensures { RunsKeepPromises }
{
    law_run();
}
