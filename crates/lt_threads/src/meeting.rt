// Each two runners look at the rings between them.
ghost use Rattle.std.specs.Prelude.{◌≡◌, ◌<◌, ◌+◌, ◌++◌, ◌∷◌, [], length, vec_len, vec_capacity};
ghost use Rattle.lt_runner.specs.Kept.{AreBeside, AsSeen};
ghost use Rattle.lt_threads.specs.Meeting.{EachIs, AreMet, AnyTwo, RunnersLinked, BothLook, PairMeets, Meeting};

use lt_runner::Runner;

/// Each two runners look at the rings between them, after which each knows all letters that are in its rings.
pub(crate) fn meet_all(runners: &mut Vec<Runner>)
    requires { RunnersLinked runners.old.items }
    ensures seen { EachIs AsSeen runners.old.items runners.new.items }
    ensures met { AreMet AnyTwo runners.new.items }
    ensures len { vec_len runners.new ≡ vec_len runners.old }
    ensures room { vec_capacity runners.new ≡ vec_capacity runners.old }
{
    if let Some(mut last) = runners.pop() {
        meet_all(runners);
        meet_last(runners, &mut last);
        runners.push_reserved(last);
    }
}

// The last runner and each other one look at the rings between them.
fn meet_last(runners: &mut [Runner], last: &mut Runner)
    requires linked { RunnersLinked (runners.old ++ last.old ∷ []) }
    requires met { AreMet AnyTwo runners.old }
    ensures { Meeting (length runners.old) (length runners.old) (runners.old ++ last.old ∷ []) (runners.new ++ last.new ∷ []) }
{
    for earlier in 0..runners.len() {
        meet_two(runners, earlier, last);
    }
}

fn meet_two(runners: &mut [Runner], earlier: usize, last: &mut Runner)
    requires inside { earlier < length runners.old }
    requires linked { RunnersLinked (runners.old ++ last.old ∷ []) }
    ensures { PairMeets earlier (length runners.old) (runners.old ++ last.old ∷ []) (runners.new ++ last.new ∷ []) }
{
    meet_both(&mut runners[earlier], last);
}

#[tactic(auto, using(crate::proofs::Pairs::both_look))]
fn meet_both(first: &mut Runner, second: &mut Runner)
    requires there { AreBeside first.old second.old }
    requires back { AreBeside second.old first.old }
    ensures { BothLook first.old.node.me second.old.node.me first.old second.old first.new second.new }
{
    first.meet(second);
    second.meet(first);
}
