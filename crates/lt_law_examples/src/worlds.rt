//! Whole worlds in the middle of worked runs, each computed by the proof.
ghost use Rattle.lt_law_examples.specs.Worked.{IsWholeRun};
ghost use Rattle.lt_law_examples.specs.Snapshot.{StandsSo};
ghost use Rattle.lt_law_examples.specs.WorldHoped.{asks_by_hoped_links, asks_by_hoped_links_after_21};
ghost use Rattle.lt_law_examples.specs.WorldTokens.{tokens_on_way, tokens_on_way_after_11};
ghost use Rattle.lt_law_examples.specs.WorldBehind.{asks_behind_token, asks_behind_token_after_17};
ghost use Rattle.lt_law_examples.specs.WorldBusy.{busy_in_another_set, busy_in_another_set_after_38};
ghost use Rattle.lt_law_examples.specs.WorldDrop.{drop_counts_locks, drop_counts_locks_after_24};
ghost use Rattle.lt_law_examples.specs.WorldOrder.{drop_in_order, drop_in_order_after_24};
ghost use Rattle.lt_law_examples.specs.WorldCopy.{copy_before_token, copy_before_token_after_10};
ghost use Rattle.lt_law_examples.specs.WorldExamples.{copies_and_freezes_after_19, token_comes_back_after_13, old_freeze_after_16};

/// The runs: these moves in this order are enabled in turn, with these stamps and lines, to the end.
#[tactic(auto, unfolding(lt_modes::specs::Modes::conflicts))]
pub fn law_worlds_runs()
    ensures asks_by_hoped_links { IsWholeRun asks_by_hoped_links }
    ensures tokens_on_way { IsWholeRun tokens_on_way }
    ensures asks_behind_token { IsWholeRun asks_behind_token }
    ensures busy_in_another_set { IsWholeRun busy_in_another_set }
    ensures drop_counts_locks { IsWholeRun drop_counts_locks }
    ensures drop_in_order { IsWholeRun drop_in_order }
    ensures copy_before_token { IsWholeRun copy_before_token }
{}

/// After so many moves of each run the whole world is this one.
#[tactic(auto, unfolding(lt_modes::specs::Modes::conflicts))]
pub fn law_worlds_midway()
    ensures asks_by_hoped_links { StandsSo asks_by_hoped_links_after_21 }
    ensures tokens_on_way { StandsSo tokens_on_way_after_11 }
    ensures asks_behind_token { StandsSo asks_behind_token_after_17 }
    ensures busy_in_another_set { StandsSo busy_in_another_set_after_38 }
    ensures drop_counts_locks { StandsSo drop_counts_locks_after_24 }
    ensures drop_in_order { StandsSo drop_in_order_after_24 }
    ensures copy_before_token { StandsSo copy_before_token_after_10 }
    ensures copies_and_freezes { StandsSo copies_and_freezes_after_19 }
    ensures token_comes_back { StandsSo token_comes_back_after_13 }
    ensures old_freeze { StandsSo old_freeze_after_16 }
{}
