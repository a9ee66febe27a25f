// Each two stations' runners look at the rings between them.
ghost use Rattle.std.specs.Prelude.{◌≡◌, ◌<◌, length, map, vec_len, vec_capacity};
ghost use Rattle.lt_runner.specs.Kept.{AreBeside};
ghost use Rattle.lt_threads.specs.Meeting.{AreMet, AnyTwo, RunnersLinked};
ghost use Rattle.lt_live.specs.Stations.{runner_of};
ghost use Rattle.lt_live.specs.Served.{LinkedWith, TwoLook, MeetsLast, LastMeetsAll, StationsMet, HasKeptRunner, HaveKeptRunners};

use crate::station::Station;
use lt_runner::Runner;

/// Each two runners look at the rings between them, after which each knows all letters that are in its rings.
pub(crate) fn meet_all(stations: &mut Vec<Station>)
    requires { RunnersLinked (map runner_of stations.old.items) }
    ensures met { StationsMet stations.old.items stations.new.items }
    ensures len { vec_len stations.new ≡ vec_len stations.old }
    ensures room { vec_capacity stations.new ≡ vec_capacity stations.old }
{
    if let Some(mut last) = stations.pop() {
        meet_all(stations);
        meet_last(stations, &mut last);
        stations.push_reserved(last);
    }
}

// The last station's runner and each other one look at the rings between them.
fn meet_last(stations: &mut [Station], last: &mut Station)
    requires linked { LinkedWith stations.old last.old }
    requires met { AreMet AnyTwo (map runner_of stations.old) }
    ensures { LastMeetsAll stations.old last.old stations.new last.new }
{
    for earlier in 0..stations.len() {
        meet_two(stations, earlier, last);
    }
}

fn meet_two(stations: &mut [Station], earlier: usize, last: &mut Station)
    requires inside { earlier < length stations.old }
    requires linked { LinkedWith stations.old last.old }
    ensures { MeetsLast earlier stations.old last.old stations.new last.new }
{
    stations[earlier].meet(last);
}

impl Station {
    /// The two runners look at the rings between them.
    pub(crate) fn meet(&mut self, other: &mut Station)
        requires there { AreBeside self.old.runner other.old.runner }
        requires back { AreBeside other.old.runner self.old.runner }
        ensures look { TwoLook self.old.runner other.old.runner self.new.runner other.new.runner }
        ensures seats { self.new.seats ≡ self.old.seats }
        ensures others { other.new.seats ≡ other.old.seats }
    {
        meet_both(&mut self.runner, &mut other.runner);
    }

    /// What its runner keeps.
    pub fn runner_kept(&self)
        ensures { HasKeptRunner self.now }
    {
        self.runner.kept();
        self.runner.commands();
    }
}

#[tactic(auto, using(lt_threads::proofs::Pairs::both_look))]
fn meet_both(first: &mut Runner, second: &mut Runner)
    requires there { AreBeside first.old second.old }
    requires back { AreBeside second.old first.old }
    ensures { TwoLook first.old second.old first.new second.new }
{
    first.meet(second);
    second.meet(first);
}

/// What each runner keeps.
pub(crate) fn runners_kept(stations: &[Station])
    ensures { HaveKeptRunners (length stations.now) stations.now }
{
    for k in 0..stations.len() {
        stations[k].runner_kept();
    }
}
