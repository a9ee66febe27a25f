// Who waits.
ghost use Rattle.std.specs.Prelude.{◌≡◌, ◌<◌, length};
ghost use Rattle.lt_spec.specs.World.{anyone_waits, is_waiting};
ghost use Rattle.lt_runner.specs.Kept.{AsSeen};
ghost use Rattle.lt_threads.specs.Meeting.{EachIs, IsCrew, AreKept, crew_world, AreMet, AnyTwo};

use crate::fetching::all_kept;
use crate::meeting::meet_all;
use lt_runner::Runner;
use lt_script::Script;

/// Whether some client of the script waits.
pub fn anyone_waits(script: &Script, runners: &mut Vec<Runner>) -> bool
    requires { IsCrew script.now runners.old.items }
    ensures crew { IsCrew script.now runners.new.items }
    ensures seen { EachIs AsSeen runners.old.items runners.new.items }
    ensures waits { result ≡ anyone_waits script.now (crew_world script.now runners.new.items) }
{
    meet_all(runners);
    all_kept(runners);
    some_client_waits(script, runners)
}

fn some_client_waits(script: &Script, runners: &[Runner]) -> bool
    requires crew { IsCrew script.now runners.now }
    requires kept { AreKept runners.now }
    requires met { AreMet AnyTwo runners.now }
    ensures { result ≡ anyone_waits script.now (crew_world script.now runners.now) }
{
    for client in 0..script.clients() {
        if client_waits(script, runners, client) {
            return true;
        }
    }
    false
}

fn client_waits(script: &Script, runners: &[Runner], client: u16) -> bool
    requires crew { IsCrew script.now runners.now }
    requires kept { AreKept runners.now }
    requires met { AreMet AnyTwo runners.now }
    requires client { client < length script.now.clients }
    ensures { result ≡ is_waiting script.now (crew_world script.now runners.now) client }
{
    runners[usize::from(script.home(client))].waits(client)
}
