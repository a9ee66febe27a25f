// What a station, or a node in a process of its own, tells of what clients hold and wait for.
ghost use Rattle.std.specs.Prelude.{◌≡◌, Some};
ghost use Rattle.lt_live_c.specs.Calls.{mode_numbered};
ghost use Rattle.lt_live_c.specs.Viewing.{node_seen, number_of_mode, locks_seen, locks_of_mode, tells_behind};
ghost use Rattle.lt_live_c.specs.Viewing.{TellsHeld, TellsAsked};

use crate::code::{NOTHING, OK, WRONG_HANDLE, mode_numbered};
use crate::content::Content;
use lt_live::Station;
use lt_modes::Mode;

pub fn held(content: &Content, client: u32, from: u32, set: &mut u32) -> u32
    ensures { TellsHeld (node_seen content.now) client from result set.old set.new }
{
    match content {
        Content::Station(station) => held_at(station, client, from, set),
        Content::Node(node) => held_at(node.remote.station(), client, from, set),
        _ => WRONG_HANDLE,
    }
}

fn held_at(station: &Station, client: u32, from: u32, set: &mut u32) -> u32
    ensures { TellsHeld (Some station.now.runner.node) client from result set.old set.new }
{
    if client >= 65536 {
        return NOTHING;
    }
    match station.first_held(client as u16, from) {
        Some(found) => {
            *set = found;
            OK
        }
        None => NOTHING,
    }
}

pub fn locks(content: &Content, client: u32, set: u32, mode: u32) -> u64
    ensures { result ≡ locks_seen (node_seen content.now) client set (mode_numbered mode) }
{
    match (content, mode_numbered(mode)) {
        (Content::Station(station), Some(mode)) => locks_at(station, client, set, mode),
        (Content::Node(node), Some(mode)) => locks_at(node.remote.station(), client, set, mode),
        _ => 0,
    }
}

fn locks_at(station: &Station, client: u32, set: u32, mode: Mode) -> u64
    ensures { result ≡ locks_of_mode station.now.runner.node client set mode }
{
    if client >= 65536 {
        return 0;
    }
    station.count_held(client as u16, set, mode)
}

pub fn asked(content: &Content, client: u32, set: &mut u32, mode: &mut u32) -> u32
    ensures { TellsAsked (node_seen content.now) client result set.old mode.old set.new mode.new }
{
    match content {
        Content::Station(station) => asked_at(station, client, set, mode),
        Content::Node(node) => asked_at(node.remote.station(), client, set, mode),
        _ => WRONG_HANDLE,
    }
}

fn asked_at(station: &Station, client: u32, set: &mut u32, mode: &mut u32) -> u32
    ensures { TellsAsked (Some station.now.runner.node) client result set.old mode.old set.new mode.new }
{
    if client >= 65536 {
        return NOTHING;
    }
    match station.wait_of(client as u16) {
        Some((found, wanted)) => {
            *set = found;
            *mode = number_of_mode(wanted);
            OK
        }
        None => NOTHING,
    }
}

fn number_of_mode(mode: Mode) -> u32
    ensures { result ≡ number_of_mode mode }
{
    match mode {
        Mode::IntentionRead => 0,
        Mode::Read => 1,
        Mode::Upgrade => 2,
        Mode::IntentionWrite => 3,
        Mode::ReadIntentionWrite => 4,
        Mode::Write => 5,
    }
}

pub fn behind(content: &Content, set: u32, client: u32, other: u32) -> u32
    ensures { result ≡ tells_behind (node_seen content.now) set client other }
{
    match content {
        Content::Station(station) => behind_at(station, set, client, other),
        Content::Node(node) => behind_at(node.remote.station(), set, client, other),
        _ => WRONG_HANDLE,
    }
}

fn behind_at(station: &Station, set: u32, client: u32, other: u32) -> u32
    ensures { result ≡ tells_behind (Some station.now.runner.node) set client other }
{
    if client >= 65536 || other >= 65536 {
        return NOTHING;
    }
    if station.queues_before(set, other as u16, client as u16) {
        OK
    } else {
        NOTHING
    }
}
