// The node that can make a move.
ghost use Rattle.std.specs.Prelude.{◌≡◌, length};
ghost use Rattle.lt_runner.specs.Kept.{AsSeen};
ghost use Rattle.lt_threads.specs.Meeting.{EachIs, IsCrew, crew_world, IsLeastEnabled, EachShows, IsFirstMove};

use crate::fetching::{all_kept, fetch_all};
use crate::meeting::meet_all;
use lt_law_merged::law_can_move;
use lt_runner::Runner;
use lt_script::Script;

/// The least node that can make a move; none exactly at rest.
///
/// Each two runners look at the rings between them, and each that has no letter in hand takes one that came: then who can
/// make a move shows one.
pub fn any_enabled(script: &Script, runners: &mut Vec<Runner>) -> Option<u8>
    requires { IsCrew script.now runners.old.items }
    ensures crew { IsCrew script.now runners.new.items }
    ensures seen { EachIs AsSeen runners.old.items runners.new.items }
    ensures least { IsLeastEnabled script.now (crew_world script.now runners.new.items) result }
    ensures all { EachShows script.now runners.new.items }
    ensures shows { IsFirstMove runners.new.items result }
{
    law_can_move();
    meet_all(runners);
    fetch_all(runners);
    all_kept(runners);
    first_to_move(runners, script.nodes())
}

#[tactic(auto, using(crate::proofs::Logs::next_shows, crate::proofs::Logs::first_shows, crate::proofs::Logs::none_shows))]
fn first_to_move(runners: &[Runner], nodes: u8) -> Option<u8>
    requires { nodes ≡ length runners.now }
    ensures { IsFirstMove runners.now result }
{
    for node in 0..nodes {
        if runners[usize::from(node)].has_move() {
            return Some(node);
        }
    }
    None
}
