// One turn of a station.
ghost use Rattle.std.specs.Prelude.{◌≡◌, ◌≢◌, ◌<◌, ℕ, true, false, Some, IfSome, length, slice_get};
ghost use Rattle.lt_spec.specs.NodeMove.{home};
ghost use Rattle.lt_runner.specs.declared.choice.Choice.TheVariants as choices;
ghost use Rattle.lt_runner.specs.declared.turning.Turned.TheVariants as turns;
ghost use Rattle.lt_runner.specs.Choices.{next_choice};
ghost use Rattle.lt_runner.specs.Kept.{Grew, TurnEnds, HasPassedOn};
ghost use Rattle.lt_live.specs.declared.ends.Seat.{Seat as SeatEnds};
ghost use Rattle.lt_live.specs.Seats.{TakesIn, TellsSeat, IsLastLine};
ghost use Rattle.lt_live.specs.Stations.{IsStation, EachSeat, SeatAt, OnlyAppends, HandMayGo, MayHandOver, CanNotAppend, CanAppend, may_append, NoneCanAppend, SomeCanAppend, StationTurns, HasCursorAt, HaveCursors};

use crate::asking::may_ask;
use crate::ends::Seat;
use crate::seats::only_line;
use lt_log::LongLog;
use lt_modes::{Command, Event};
use lt_runner::{Gate, Runner, Turned};
use lt_spec::MAX_COMMANDS_OF_SERVICE;

/// Takes commands in and appends them, makes one move, and tells the replies.
pub(crate) fn turn_of<G: Gate>(seats: &mut Vec<Seat>, runner: &mut Runner, gate: &G) -> Turned
    requires { IsStation runner.old seats.old.items }
    ensures kept { IsStation runner.new seats.new.items }
    ensures turns { StationTurns result runner.old seats.old.items runner.new seats.new.items }
{
    take_all(seats);
    let fits = append_all(seats, runner);
    let turned = make_move(runner, fits, gate);
    runner.kept();
    tell_all(seats, runner.log());
    turned
}

// Makes one move, where memory didn't run out before.
#[tactic(auto, using(lt_runner::proofs::TurnLemmas::grew_self))]
fn make_move<G: Gate>(runner: &mut Runner, fits: bool, gate: &G) -> Turned
    ensures grew { Grew runner.old runner.new }
    ensures ends { fits ≡ true → TurnEnds result runner.old runner.new }
    ensures shown { fits ≡ true → next_choice runner.old ≢ choices.Nothing → result ≢ turns.Quiet }
    ensures passed { fits ≡ true → HasPassedOn runner.old runner.new }
    ensures memory { fits ≡ false → (result ≡ turns.NoMemory) × (runner.new ≡ runner.old) }
{
    if fits {
        runner.turn(gate)
    } else {
        Turned::NoMemory
    }
}

/// Each seat that has no command in hand takes one.
pub(crate) fn take_all(seats: &mut Vec<Seat>)
    ensures { EachSeat TakesIn seats.old.items seats.new.items }
{
    for place in 0..seats.len() {
        take_at(seats, place);
    }
}

fn take_at(seats: &mut Vec<Seat>, place: usize)
    requires { place < length seats.old.items }
    ensures { SeatAt TakesIn place seats.old.items seats.new.items }
{
    seats[place].take_in();
}

/// Appends the commands in hand that can be; false where memory ran out for one, which stays in hand.
pub(crate) fn append_all(seats: &mut Vec<Seat>, runner: &mut Runner) -> bool
    requires { IsStation runner.old seats.old.items }
    ensures kept { IsStation runner.new seats.new.items }
    ensures runner { OnlyAppends runner.old runner.new }
    ensures seats { EachSeat HandMayGo seats.old.items seats.new.items }
    ensures all { result ≡ true → NoneCanAppend runner.new seats.new.items }
    ensures memory { result ≡ false → SomeCanAppend runner.new seats.new.items }
{
    for place in 0..seats.len() {
        if !append_at(seats, runner, place) {
            return false;
        }
    }
    true
}

fn append_at(seats: &mut Vec<Seat>, runner: &mut Runner, place: usize) -> bool
    requires inside { place < length seats.old.items }
    requires kept { IsStation runner.old seats.old.items }
    ensures kept { IsStation runner.new seats.new.items }
    ensures runner { OnlyAppends runner.old runner.new }
    ensures seat { SeatAt HandMayGo place seats.old.items seats.new.items }
    ensures hand { result ≡ true → (seat : SeatEnds) → slice_get seats.new.items place ≡ Some seat → CanNotAppend runner.new seat }
    ensures memory { result ≡ false → SomeCanAppend runner.new seats.new.items }
{
    append(&mut seats[place], runner)
}

// Appends the command in hand, where it can be; false where memory ran out, and then it stays in hand.
#[tactic(auto, using(crate::proofs::TurnParts::can_append))]
fn append(seat: &mut Seat, runner: &mut Runner) -> bool
    requires client { seat.old.client < length runner.old.node.script.clients }
    requires home { home runner.old.node.script seat.old.client ≡ runner.old.node.me }
    ensures hand { MayHandOver seat.old runner.old seat.new runner.new }
    ensures rest { result ≡ true → CanNotAppend runner.new seat.new }
    ensures memory { result ≡ false → CanAppend runner.new seat.new }
{
    let Some(command) = seat.hand else {
        return true;
    };
    if !may_append(runner, seat.client, command) {
        return true;
    }
    if runner.append(seat.client, command).is_err() {
        return false;
    }
    seat.hand = None;
    true
}

// Whether the command can be appended for the client.
#[tactic(auto, using(crate::proofs::TurnParts::ask_same))]
fn may_append(runner: &Runner, client: u16, command: Command) -> bool
    requires { client < length runner.now.node.script.clients }
    ensures { result ≡ may_append runner.now.node.script client command }
{
    runner.commands() < MAX_COMMANDS_OF_SERVICE && may_ask(runner.script(), client, command)
}

// Tells each client its replies, in order, while its ring has places.
fn tell_all(seats: &mut Vec<Seat>, log: &LongLog)
    requires { HaveCursors log.now seats.old.items }
    ensures { EachSeat (TellsSeat log.now.entries) seats.old.items seats.new.items }
{
    let only = line_for(seats.len(), log);
    for place in 0..seats.len() {
        tell_at(seats, log, only, place);
    }
}

/// The line of the log's last move, where it has just one, and there are several seats to tell.
pub(crate) fn line_for(seats: usize, log: &LongLog) -> Option<&Event>
    ensures { IfSome result (λ line. IsLastLine log.now.entries line.now) }
{
    if seats < 2 { None } else { only_line(log) }
}

fn tell_at(seats: &mut Vec<Seat>, log: &LongLog, only: Option<&Event>, place: usize)
    requires inside { place < length seats.old.items }
    requires cursor { HasCursorAt log.now seats.old.items place }
    requires only { IfSome only (λ line. IsLastLine log.now.entries line.now) }
    ensures { SeatAt (TellsSeat log.now.entries) place seats.old.items seats.new.items }
{
    seats[place].tell_after(log, only);
}
