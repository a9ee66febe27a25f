ghost use Rattle.std.specs.Prelude.{◌≡◌, List};
ghost use Rattle.lt_spec.specs.World.{Logged as AnyLogged};
ghost use Rattle.lt_spec.specs.Holdings.{lines_of};
ghost use Rattle.lt_tally.specs.LockTable.{IsTallied};
ghost use Rattle.lt_tally.specs.Summary.{waiting_after};

use crate::tally::Tally;
use lt_script::Script;

/// How many clients wait after a run that comes to this.
pub(crate) fn clients_waiting(script: &Script, tally: &Tally) -> u16
    ensures { (run : List AnyLogged) → IsTallied script.now tally.now (lines_of run) → result ≡ waiting_after script.now run }
{
    let mut count = 0;
    for client in 0..script.clients() {
        if tally.wanted(client).is_some() {
            count += 1;
        }
    }
    count
}
