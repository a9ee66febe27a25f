// One node of a script, in a process of its own.
ghost use Rattle.std.specs.Prelude.{◌≡◌, ◌<◌, ◌≤◌, ◌+◌, [], length, IfOk, OnOk};
ghost use Rattle.lt_spec.specs.declared.moves.TheConstants.{MAX_MOVES_OF_SERVICE};
ghost use Rattle.lt_spec.specs.declared.limits.TheConstants.{MAX_COMMANDS};
ghost use Rattle.lt_mail.specs.Opening.{IsFresh};
ghost use Rattle.lt_live.specs.Stations.{most_share};
ghost use Rattle.lt_live.specs.OneNode.{IsUnused, OpensHere, IsOpenNode};

use crate::ends::Session;
use crate::opening::new_session;
use crate::station::Station;
use lt_mail::Mail;
use lt_runner::Runner;
use lt_script::Script;
use std::alloc::{AllocError, Global};

/// A station for one node of the script, whose letters go by this mail, and a session for each of the node's
/// clients, in order.
///
/// The node makes up to `limit` moves. A session's rings of commands and of replies have `capacity` places each, and it
/// may submit `share` commands in its life. Without memory the mail is dropped.
pub fn open_node(
    alloc: Global,
    script: &Script,
    node: u8,
    mail: Mail,
    limit: u64,
    capacity: u32,
    share: u64,
) -> Result<(Station, Vec<Session>), AllocError>
    requires commands { script.now.commands ≡ [] }
    requires node { node < script.now.nodes }
    requires mail { IsFresh script.now.nodes node mail }
    requires limit { (0 < limit) × (limit ≤ MAX_MOVES_OF_SERVICE) }
    requires capacity { (0 < capacity) × (capacity ≤ MAX_COMMANDS) }
    requires share { share ≤ most_share script.now }
    ensures { IfOk result (λ opened. IsOpenNode script.now node mail limit capacity share opened.0 opened.1.items) }
{
    let runner = Runner::new(alloc, script, node, mail, limit)?;
    let mut station = Station::new(alloc, runner);
    let sessions = sessions_at(alloc, script, capacity, share, &mut station)?;
    Ok((station, sessions))
}

// New sessions of all clients of the station's node, with their seats there.
#[tactic(auto, using(crate::proofs::OpensHere::none_opened))]
fn sessions_at(
    alloc: Global,
    script: &Script,
    capacity: u32,
    share: u64,
    station: &mut Station,
) -> Result<Vec<Session>, AllocError>
    requires commands { script.now.commands ≡ [] }
    requires capacity { 0 < capacity }
    requires unused { IsUnused script.now station.old.runner }
    requires seats { station.old.seats ≡ [] }
    ensures runner { OnOk result (station.new.runner ≡ station.old.runner) }
    ensures own { IfOk result (λ sessions.
        OpensHere script.now capacity share (length script.now.clients) station.new sessions.items) }
{
    let mut sessions = Vec::new(alloc);
    for client in 0..script.clients() {
        add_own(
            alloc,
            script,
            client,
            capacity,
            share,
            station,
            &mut sessions,
        )?;
    }
    Ok(sessions)
}

// The session of the next client with its seat, where it is one of the station's node.
fn add_own(
    alloc: Global,
    script: &Script,
    client: u16,
    capacity: u32,
    share: u64,
    station: &mut Station,
    sessions: &mut Vec<Session>,
) -> Result<(), AllocError>
    requires client { client < length script.now.clients }
    requires commands { script.now.commands ≡ [] }
    requires capacity { 0 < capacity }
    requires unused { IsUnused script.now station.old.runner }
    requires opening { OpensHere script.now capacity share client station.old sessions.old.items }
    ensures runner { OnOk result (station.new.runner ≡ station.old.runner) }
    ensures own { OnOk result (OpensHere script.now capacity share (client + 1) station.new sessions.new.items) }
{
    if script.home(client) != station.node() {
        return Ok(());
    }
    let place = station.seats();
    let (session, seat) = new_session(alloc, script, client, place, share, capacity)?;
    station.add_seat(seat)?;
    sessions.push(session)?;
    Ok(())
}
