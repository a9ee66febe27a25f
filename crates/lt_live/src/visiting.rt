// Stations in a pool, which workers share.
ghost use Rattle.std.specs.Prelude.{◌≡◌, ◌<◌, [], length, None, IfSome, OnSome};
ghost use Rattle.lt_live.specs.Live.{IsVisit, IsRefusedVisit};

use crate::station::Station;
use lt_pool::{Badge, Pool};
use lt_runner::{Gate, Turned};

/// A worker's visit of a station that lies in a pool: it claims the station, lets it make a turn and gives it back.
///
/// None, if another worker has the station.
pub fn visit<G: Gate>(
    pool: &Pool<Station>,
    badge: &mut Badge<Station>,
    node: u8,
    gate: &G,
) -> Option<Turned>
    requires of { badge.old.pool ≡ pool.now }
    requires inside { node < length pool.now.firsts }
    requires free { badge.old.claimed ≡ [] }
    ensures badge { badge.new ≡ record badge.old { refused = badge.new.refused; history = badge.new.history } }
    ensures visited { OnSome result (badge.new.refused ≡ badge.old.refused) }
    ensures turned { IfSome result (IsVisit pool.now.firsts node) }
    ensures refused { result ≡ None → IsRefusedVisit node badge.old.refused badge.new.refused }
{
    let Ok(mut station) = pool.claim(badge, node) else {
        return None;
    };
    let turned = station.turn(gate);
    pool.give(badge, node, station);
    Some(turned)
}
