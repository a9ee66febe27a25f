//! The rules as definitions give the worked examples, each computed whole by the proof.
ghost use Rattle.lt_law_examples.specs.Worked.{IsFirstRun, IsWholeRun, whole_read_beside_intention_read, upgrade_to_sixth};
ghost use Rattle.lt_law_examples.specs.WorkedOneNode.{lock_then_unlock, write_in_turn, write_kept, many_locks, never_held, drop_in_family, holder_first, change_down, changes_wait};
ghost use Rattle.lt_law_examples.specs.WorkedNodes.{read_everywhere, reader_draws_desk, token_to_writer, frozen_read, try_at_home, change_after_reader, changes_from_two_nodes, asks_park_behind, TwoAsksParked, marked_ask_parks, upgrade_with_readers, change_before_writer, drop_without_waiting, shared_with_upgrade};
ghost use Rattle.lt_law_examples.specs.WorkedOrders.{late_copy, overtaking_tells, drop_at_desk, several_copies, copy_and_freeze, desk_with_copy_out, second_ask_bars, token_meets_parked, upgrades_in_turn, copy_after_move, change_to_write, old_freeze, old_tell};
ghost use Rattle.lt_law_examples.specs.WorkedLong.{freezes_overtake, copies_and_freezes, token_goes_round, token_comes_back, three_sets, upgrade_from_write, copies_stay_owed, owed_until_told};

/// The worked examples on one node: the rules give these moves and lines.
#[tactic(auto, unfolding(lt_modes::specs::Modes::conflicts))]
pub fn law_examples_one_node()
    ensures lock_then_unlock { IsFirstRun lock_then_unlock }
    ensures write_in_turn { IsFirstRun write_in_turn }
    ensures write_kept { IsFirstRun write_kept }
    ensures many_locks { IsFirstRun many_locks }
    ensures never_held { IsFirstRun never_held }
    ensures drop_in_family { IsFirstRun drop_in_family }
    ensures holder_first { IsFirstRun holder_first }
    ensures change_down { IsFirstRun change_down }
    ensures changes_wait { IsWholeRun changes_wait }
{}

/// The worked examples on two to four nodes, in the fixed order of moves.
#[tactic(auto, unfolding(lt_modes::specs::Modes::conflicts))]
pub fn law_examples_nodes()
    ensures read_everywhere { IsFirstRun read_everywhere }
    ensures reader_draws_desk { IsFirstRun reader_draws_desk }
    ensures token_to_writer { IsFirstRun token_to_writer }
    ensures frozen_read { IsFirstRun frozen_read }
    ensures try_at_home { IsFirstRun try_at_home }
    ensures change_after_reader { IsFirstRun change_after_reader }
    ensures changes_from_two_nodes { IsFirstRun changes_from_two_nodes }
    ensures asks_park_behind { IsFirstRun asks_park_behind }
    ensures asks_stand { TwoAsksParked }
    ensures marked_ask_parks { IsFirstRun marked_ask_parks }
    ensures upgrade_with_readers { IsFirstRun upgrade_with_readers }
    ensures change_before_writer { IsFirstRun change_before_writer }
    ensures drop_without_waiting { IsFirstRun drop_without_waiting }
    ensures shared_with_upgrade { IsFirstRun shared_with_upgrade }
{}

/// The worked examples in other orders of moves.
#[tactic(auto, unfolding(lt_modes::specs::Modes::conflicts))]
pub fn law_examples_orders()
    ensures late_copy { IsWholeRun late_copy }
    ensures overtaking_tells { IsWholeRun overtaking_tells }
    ensures drop_at_desk { IsWholeRun drop_at_desk }
    ensures several_copies { IsWholeRun several_copies }
    ensures copy_and_freeze { IsWholeRun copy_and_freeze }
    ensures desk_with_copy_out { IsWholeRun desk_with_copy_out }
    ensures second_ask_bars { IsWholeRun second_ask_bars }
    ensures token_meets_parked { IsWholeRun token_meets_parked }
    ensures upgrades_in_turn { IsWholeRun upgrades_in_turn }
    ensures copy_after_move { IsWholeRun copy_after_move }
    ensures change_to_write { IsWholeRun change_to_write }
    ensures old_freeze { IsWholeRun old_freeze }
    ensures old_tell { IsWholeRun old_tell }
{}

/// The longer worked examples in other orders of moves.
#[tactic(auto, unfolding(lt_modes::specs::Modes::conflicts))]
pub fn law_examples_long()
    ensures freezes_overtake { IsWholeRun freezes_overtake }
    ensures copies_and_freezes { IsWholeRun copies_and_freezes }
    ensures token_goes_round { IsWholeRun token_goes_round }
    ensures token_comes_back { IsWholeRun token_comes_back }
    ensures three_sets { IsWholeRun three_sets }
    ensures upgrade_from_write { IsWholeRun upgrade_from_write }
    ensures copies_stay_owed { IsWholeRun copies_stay_owed }
    ensures owed_until_told { IsWholeRun owed_until_told }
{}

/// Worked examples with the sixth mode.
#[tactic(auto, unfolding(lt_modes::specs::Modes::conflicts))]
pub fn law_examples_sixth_mode()
    ensures whole_read_beside_intention_read { IsFirstRun whole_read_beside_intention_read }
    ensures upgrade_to_sixth { IsFirstRun upgrade_to_sixth }
{}
