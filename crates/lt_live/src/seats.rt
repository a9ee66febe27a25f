// What a station does with the end of one session.
ghost use Rattle.std.specs.Prelude.{◌≡◌, ◌≤◌, ◌<◌, ◌+◌, ◌^◌, [], true, length, IfSome, None};
ghost use Rattle.lt_spec.specs.World.{line_client};
ghost use Rattle.lt_live.specs.Seats.{IsCursorOf, TakesIn, TellsSeat, TellsMove, ToldNext, IsLastLine, reply_to};
ghost use Rattle.lt_live.specs.Words.{outbox_replies};

use crate::ends::Seat;
use crate::reply::reply_to;
use lt_log::LongLog;
use lt_modes::Event;

impl Seat {
    /// Takes a command into the hand, where none is there and no reply waits: so a caller that doesn't poll can't make
    /// the outbox grow.
    pub(crate) fn take_in(&mut self)
        ensures { TakesIn self.old self.new }
    {
        if self.hand.is_none() && self.waiting.is_empty() {
            self.fill_hand();
        }
    }

    fn fill_hand(&mut self)
        requires hand { self.old.hand ≡ None }
        requires empty { outbox_replies self.old ≡ [] }
        ensures { TakesIn self.old self.new }
    {
        if let Ok(command) = self.commands.pop() {
            self.hand = Some(command);
        }
    }

    /// Gives the ring what waits, and then the client's replies of the log, in order, while it has places.
    pub(crate) fn tell(&mut self, log: &LongLog)
        requires { IsCursorOf log.now self.old }
        ensures { TellsSeat log.now.entries self.old self.new }
    {
        if self.tell_waiting() {
            self.tell_further(log);
        }
    }

    /// The same where the log's last move has this line alone, if one is given.
    pub(crate) fn tell_after(&mut self, log: &LongLog, only: Option<&Event>)
        requires cursor { IsCursorOf log.now self.old }
        requires only { IfSome only (λ line. IsLastLine log.now.entries line.now) }
        ensures { TellsSeat log.now.entries self.old self.new }
    {
        match only {
            Some(line) if self.passes(log, line) => {
                self.moves = log.len();
                self.lines = 0;
            }
            _ => self.tell(log),
        }
    }

    /// Whether nothing is to be told but the log's last move, and this line isn't to the client.
    #[tactic(auto, using(crate::proofs::Passing::to_others))]
    #[inline(always)]
    pub(crate) fn passes(&self, log: &LongLog, line: &Event) -> bool
        requires cursor { IsCursorOf log.now self.now }
        ensures waits { result ≡ true → outbox_replies self.now ≡ [] }
        ensures moves { result ≡ true → self.now.moves + 1 ≡ length log.now.entries }
        ensures lines { result ≡ true → self.now.lines ≡ 0 }
        ensures silent { result ≡ true → reply_to self.now.client line.now ≡ None }
    {
        self.waiting.is_empty()
            && self.lines == 0
            && log.len() - self.moves == 1
            && client_of(line) != Some(self.client)
    }

    // Gives the ring the client's further replies of the log, where none waits.
    fn tell_further(&mut self, log: &LongLog)
        requires cursor { IsCursorOf log.now self.old }
        requires empty { outbox_replies self.old ≡ [] }
        ensures { TellsSeat log.now.entries self.old self.new }
    {
        while self.moves < log.len() {
            if !self.tell_move(log.events(self.moves)) {
                return;
            }
            self.moves += 1;
            self.lines = 0;
        }
    }

    // Gives the ring the client's replies of one move; false where the ring has no place for one.
    fn tell_move(&mut self, lines: &[Event]) -> bool
        requires { self.old.lines ≤ length lines.now }
        ensures { TellsMove result lines.now self.old self.new }
    {
        while self.lines < lines.len() {
            if !self.tell_next(lines[self.lines]) {
                return false;
            }
        }
        true
    }

    /// Gives the ring the reply of the next line, where it is the client's; false where the ring has no place for it.
    pub(crate) fn tell_next(&mut self, line: Event) -> bool
        requires { self.old.lines + 1 < 2 ^ 64 }
        ensures { ToldNext result line self.old self.new }
    {
        if let Some(reply) = reply_to(self.client, line) {
            if self.replies.is_full() {
                return false;
            }
            self.replies.push_reserved(reply);
        }
        self.lines += 1;
        true
    }
}

/// The line of the log's last move, where it has just one.
pub(crate) fn only_line(log: &LongLog) -> Option<&Event>
    ensures { IfSome result (λ line. IsLastLine log.now.entries line.now) }
{
    log.is_within();
    if log.len() == log.forgotten() {
        return None;
    }
    let lines = log.events(log.len() - 1);
    if lines.len() != 1 {
        return None;
    }
    Some(&lines[0])
}

// The client that acts or is answered by the line.
#[inline(always)]
fn client_of(line: &Event) -> Option<u16>
    ensures { result ≡ line_client line.now }
{
    match *line {
        Event::Grant { client, .. }
        | Event::Wait { client, .. }
        | Event::Try { client, .. }
        | Event::Unlock { client, .. }
        | Event::NotHeld { client, .. }
        | Event::Change { client, .. }
        | Event::DropAll { client, .. }
        | Event::Busy { client, .. }
        | Event::Withdraw { client, .. }
        | Event::Withdrawn { client, .. }
        | Event::Void { client, .. }
        | Event::Withheld { client, .. } => Some(client),
        Event::Copy { .. } | Event::Freeze { .. } | Event::Token { .. } => None,
    }
}
