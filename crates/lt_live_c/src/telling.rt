// Turns that tell whom they sent letters and told replies.
ghost use Rattle.std.specs.Prelude.{◌≡◌, IsSome};
ghost use Rattle.lt_live.specs.Live.{StationGoesOn};
ghost use Rattle.lt_apart.specs.Remote.{CarriesNone};
ghost use Rattle.lt_live_c.specs.declared.code.TheConstants.{WRONG_HANDLE};
ghost use Rattle.lt_live_c.specs.Taking.{HandleGoesOn, AtStation, ContentGoesOn, OnStation};
ghost use Rattle.lt_live_c.specs.Telling.{TurnsTelling};

use crate::boxes::take;
use crate::code::{WRONG_HANDLE, number_of_turn};
use crate::content::Content;
use crate::handle::Handle;
use lt_apart::Remote;
use lt_live::{Clients, Station};
use lt_runner::Open;
use std::alloc::Global;

/// Lets a station make a turn, and tells to which nodes it sent letters and which clients it told replies.
#[unsafe(no_mangle)]
pub extern "C" fn lockrun_turn_telling(
    alloc: Global,
    station: &mut Handle,
    sent: &mut u64,
    told: &mut Clients,
) -> u32
    ensures some { IsSome station.old.value → IsSome station.new.value }
    ensures goes_on { HandleGoesOn station.old.value station.new.value }
    ensures turns { AtStation result (TurnsTelling result sent.new told.new.words) station.old.value
        station.new.value }
    ensures untold { result ≡ WRONG_HANDLE → (sent.new ≡ sent.old) × (told.new ≡ told.old) }
{
    let Some(mut inside) = take(alloc, station) else {
        return WRONG_HANDLE;
    };
    let code = turn_telling(&mut inside, sent, told);
    *station = Handle::of(inside);
    code
}

#[tactic(auto, using(lt_live::proofs::Settling::same_sessions))]
fn turn_telling(content: &mut Content, sent: &mut u64, told: &mut Clients) -> u32
    ensures goes_on { ContentGoesOn content.old content.new }
    ensures turns { OnStation result (TurnsTelling result sent.new told.new.words) content.old content.new }
    ensures untold { result ≡ WRONG_HANDLE → (sent.new ≡ sent.old) × (told.new ≡ told.old) }
{
    match content {
        Content::Station(station) => tell_of(station, sent, told),
        Content::Node(node) => tell_at(&mut node.remote, sent, told),
        _ => WRONG_HANDLE,
    }
}

#[tactic(auto, using(crate::proofs::TurnCodes::turn_is_right, lt_live::proofs::Marking::adds_alone))]
fn tell_of(station: &mut Station, sent: &mut u64, told: &mut Clients) -> u32
    ensures goes_on { StationGoesOn station.old station.new }
    ensures turns { TurnsTelling result sent.new told.new.words station.old station.new }
    ensures right { result ≡ WRONG_HANDLE → ⊥ }
{
    told.clear();
    let report = station.turn_telling(&Open, told);
    *sent = report.sent;
    number_of_turn(report.turned)
}

#[tactic(auto, using(crate::proofs::TurnCodes::turn_is_right, lt_live::proofs::Marking::adds_alone))]
fn tell_at(remote: &mut Remote, sent: &mut u64, told: &mut Clients) -> u32
    ensures goes_on { StationGoesOn remote.old.station remote.new.station }
    ensures turns { TurnsTelling result sent.new told.new.words remote.old.station remote.new.station }
    ensures carried { CarriesNone remote.old remote.new }
    ensures right { result ≡ WRONG_HANDLE → ⊥ }
{
    told.clear();
    let report = remote.turn_telling(&Open, told);
    *sent = report.sent;
    number_of_turn(report.turned)
}
