// Desks on threads, and stations beside them.
ghost use Rattle.std.specs.Prelude.{◌*◌, map};
ghost use Rattle.lt_live_callers.specs.Desks.{MakesTurns, DesksGoOn, StationsGoOn, called_of};
ghost use Rattle.lt_live_callers.specs.Over.{MadeRounds};
ghost use Rattle.lt_live_callers.specs.declared.turning.TheConstants.{TIMES_A_ROUND};

use crate::caller::Caller;
use crate::desk::{Desk, all_over};
use lt_live::Station;
use lt_runner::Open;
use std::thread::{Threads, for_each_mut, join_mut};

/// How many steps each caller makes in a round on threads, and how many turns each station.
pub const TIMES_A_ROUND: u32 = 1_000;

/// All are at work beside each other, in rounds, until no desk needs a step. Tells how many rounds were made.
pub(crate) fn work<R: Threads + Sync, C: Caller + Send>(
    rt: &R,
    stations: &mut Vec<Station>,
    desks: &mut Vec<Desk<C>>,
    threads: usize,
    rounds: u32,
) -> u32
    ensures stations { StationsGoOn (result * TIMES_A_ROUND) stations.old.items stations.new.items }
    ensures desks { DesksGoOn C.goes (result * TIMES_A_ROUND) desks.old.items desks.new.items }
    ensures rounds { MadeRounds C.says rounds result (map called_of desks.new.items) }
{
    for round in 0..rounds {
        if all_over(desks) {
            return round;
        }
        work_once(rt, stations, desks, threads);
    }
    all_over(desks);
    rounds
}

fn work_once<R: Threads + Sync, C: Caller + Send>(
    rt: &R,
    stations: &mut Vec<Station>,
    desks: &mut Vec<Desk<C>>,
    threads: usize,
)
    ensures stations { StationsGoOn TIMES_A_ROUND stations.old.items stations.new.items }
    ensures desks { DesksGoOn C.goes TIMES_A_ROUND desks.old.items desks.new.items }
{
    join_mut(
        rt,
        &mut || call_all(rt, desks, threads),
        &mut || turn_all(rt, stations, threads),
    );
}

fn call_all<R: Threads + Sync, C: Caller + Send>(rt: &R, desks: &mut Vec<Desk<C>>, threads: usize)
    ensures { DesksGoOn C.goes TIMES_A_ROUND desks.old.items desks.new.items }
{
    for_each_mut(
        rt,
        desks,
        threads.max(1),
        &|_, desk| { desk.call(TIMES_A_ROUND) },
    );
}

fn turn_all<R: Threads + Sync>(rt: &R, stations: &mut Vec<Station>, threads: usize)
    ensures { StationsGoOn TIMES_A_ROUND stations.old.items stations.new.items }
{
    for_each_mut(rt, stations, threads.max(1), &|_, station| turn(station));
}

fn turn(station: &mut Station)
    ensures { MakesTurns TIMES_A_ROUND station.old station.new }
{
    for time in 0..TIMES_A_ROUND {
        station.turn(&Open);
    }
}
