// What a station tells its clients, and which of them.
ghost use Rattle.std.specs.Prelude.{◌≡◌, ◌≤◌, ◌<◌, ◌||◌, [], length, IfSome, is_some, slice_get, Some};
ghost use Rattle.lt_mail.specs.Telling.{GrewIf};
ghost use Rattle.lt_spec.specs.declared.limits.TheConstants.{MAX_CLIENTS};
ghost use Rattle.lt_live.specs.declared.ends.Seat.{Seat as SeatEnds};
ghost use Rattle.lt_live.specs.Seats.{IsCursorOf, IsLastLine, TellsMove, TellsSeat, reply_to};
ghost use Rattle.lt_live.specs.Stations.{EachSeat, SeatAt, HasCursorAt, HaveCursors};
ghost use Rattle.lt_live.specs.Told.{AddsClients, HaveOwnBits, AnswersSeat};
ghost use Rattle.lt_live.specs.Words.{outbox_replies, told_to};

use crate::clients::Clients;
use crate::ends::Seat;
use crate::reply::reply_to;
use crate::turning::line_for;
use lt_log::LongLog;
use lt_modes::Event;

/// Tells each client its replies, in order, while its ring has places, and adds those to `told` whose rings were given
/// some.
pub(crate) fn answer_all(seats: &mut Vec<Seat>, log: &LongLog, told: &mut Clients)
    requires cursors { HaveCursors log.now seats.old.items }
    requires bits { HaveOwnBits seats.old.items }
    ensures tells { EachSeat (TellsSeat log.now.entries) seats.old.items seats.new.items }
    ensures told { AddsClients told.old told.new seats.old.items seats.new.items }
{
    let only = line_for(seats.len(), log);
    for place in 0..seats.len() {
        answer_at(seats, log, only, told, place);
    }
}

#[inline(always)]
fn answer_at(
    seats: &mut Vec<Seat>,
    log: &LongLog,
    only: Option<&Event>,
    told: &mut Clients,
    place: usize,
)
    requires inside { place < length seats.old.items }
    requires cursor { HasCursorAt log.now seats.old.items place }
    requires only { IfSome only (λ line. IsLastLine log.now.entries line.now) }
    requires few { (seat : SeatEnds) → slice_get seats.old.items place ≡ Some seat → seat.client < MAX_CLIENTS }
    ensures { SeatAt (AnswersSeat log.now.entries told.old told.new) place seats.old.items seats.new.items }
{
    answer(&mut seats[place], log, only, told);
}

// Tells the client its replies, and marks it where its ring was given some.
#[inline(always)]
fn answer(seat: &mut Seat, log: &LongLog, only: Option<&Event>, told: &mut Clients)
    requires cursor { IsCursorOf log.now seat.old }
    requires only { IfSome only (λ line. IsLastLine log.now.entries line.now) }
    requires few { seat.old.client < MAX_CLIENTS }
    ensures { AnswersSeat log.now.entries told.old told.new seat.old seat.new }
{
    let client = seat.client;
    if seat.answer_after(log, only) {
        told.insert(client);
    }
}

// Whether the line is a reply to the client.
#[inline(always)]
fn is_reply_to(client: u16, line: Event) -> bool
    ensures { result ≡ is_some (reply_to client line) }
{
    reply_to(client, line).is_some()
}

#[inline(always)]
fn either(first: bool, second: bool) -> bool
    ensures { result ≡ (first || second) }
{
    first || second
}

impl Seat {
    // Gives the ring what waits, and then the client's replies of the log, whose last move has this line alone, if one
    // is given. It says whether the ring was given any.
    #[inline(always)]
    fn answer_after(&mut self, log: &LongLog, only: Option<&Event>) -> bool
        requires cursor { IsCursorOf log.now self.old }
        requires only { IfSome only (λ line. IsLastLine log.now.entries line.now) }
        ensures tells { TellsSeat log.now.entries self.old self.new }
        ensures told { GrewIf result (told_to self.old) (told_to self.new) }
    {
        match only {
            Some(line) if self.passes(log, line) => {
                self.moves = log.len();
                self.lines = 0;
                false
            }
            _ => self.answer_on(log),
        }
    }

    // The same, whatever lines the last move has.
    #[inline(never)]
    fn answer_on(&mut self, log: &LongLog) -> bool
        requires { IsCursorOf log.now self.old }
        ensures tells { TellsSeat log.now.entries self.old self.new }
        ensures told { GrewIf result (told_to self.old) (told_to self.new) }
    {
        let waited = self.waiting.len();
        let all = self.tell_waiting();
        let told = self.waiting.len() < waited;
        if !all {
            return told;
        }
        let more = self.answer_further(log);
        either(told, more)
    }

    // Gives the ring the client's further replies of the log, where none waits, and says whether it gave any.
    fn answer_further(&mut self, log: &LongLog) -> bool
        requires cursor { IsCursorOf log.now self.old }
        requires empty { outbox_replies self.old ≡ [] }
        ensures tells { TellsSeat log.now.entries self.old self.new }
        ensures told { GrewIf result (told_to self.old) (told_to self.new) }
    {
        let mut told = false;
        while self.moves < log.len() {
            let (all, more) = self.answer_move(log.events(self.moves));
            told = either(told, more);
            if !all {
                return told;
            }
            self.moves += 1;
            self.lines = 0;
        }
        told
    }

    // Gives the ring the client's replies of one move; whether it had places for all, and whether it was given any.
    fn answer_move(&mut self, lines: &[Event]) -> (bool, bool)
        requires { self.old.lines ≤ length lines.now }
        ensures tells { TellsMove result.0 lines.now self.old self.new }
        ensures told { GrewIf result.1 (told_to self.old) (told_to self.new) }
    {
        let mut told = false;
        while self.lines < lines.len() {
            let said = is_reply_to(self.client, lines[self.lines]);
            if !self.tell_next(lines[self.lines]) {
                return (false, told);
            }
            told = either(told, said);
        }
        (true, told)
    }
}
