// What each runner does by itself.
ghost use Rattle.std.specs.Prelude.{vec_len};
ghost use Rattle.lt_threads.specs.Meeting.{AreKept, AreMet, AnyTwo, Fetching};

use lt_runner::Runner;

/// What each runner keeps.
#[tactic(auto, using(crate::proofs::Each::next_kept, crate::proofs::Each::all_kept))]
pub(crate) fn all_kept(runners: &[Runner])
    ensures { AreKept runners.now }
{
    for k in 0..runners.len() {
        runners[k].kept();
    }
}

/// Each runner that has no letter in hand takes one that is known to come.
pub(crate) fn fetch_all(runners: &mut Vec<Runner>)
    requires { AreMet AnyTwo runners.old.items }
    ensures { Fetching (vec_len runners.new) runners.old.items runners.new.items }
{
    for k in 0..runners.len() {
        runners[k].fetch();
    }
}
