// Clients that have more commands than their sessions may submit.
ghost use Rattle.std.specs.Prelude.{◌≡◌, ◌<◌, ◌≤◌, ◌+◌, length};
ghost use Rattle.lt_spec.specs.NodeMove.{commands_of};
ghost use Rattle.lt_live_serve.specs.Serves.{among, is_over, IsFirstOver};

use lt_live::equal_share;
use lt_script::Script;

/// The least client that has more commands than its session may submit.
#[tactic(auto, using(crate::proofs::Told::next_over, crate::proofs::Told::all_over))]
pub(crate) fn first_over(script: &Script) -> Option<u16>
    ensures { IsFirstOver script.now result }
{
    for client in 0..script.clients() {
        if is_over(script, client) {
            return Some(client);
        }
    }
    None
}

fn is_over(script: &Script, client: u16) -> bool
    ensures { result ≡ is_over script.now client }
{
    count_of(script, client) > u64::from(equal_share(script))
}

/// How many commands the client has.
#[tactic(auto, using(crate::proofs::Completed::count_all))]
pub(crate) fn count_of(script: &Script, client: u16) -> u64
    ensures { result ≡ length (commands_of script.now client) }
{
    let mut count = 0;
    for place in 0..script.commands() {
        count += count_at(script, client, place);
    }
    count
}

// One where the command at this place is the client's.
#[tactic(auto, using(crate::proofs::Completed::count_own, crate::proofs::Completed::count_other))]
fn count_at(script: &Script, client: u16, place: u64) -> u64
    requires { place < length script.now.commands }
    ensures count { length (among script.now client (place + 1)) ≡ length (among script.now client place) + result }
    ensures one { result ≤ 1 }
{
    let (other, _) = script.command(place);
    if other == client { 1 } else { 0 }
}
