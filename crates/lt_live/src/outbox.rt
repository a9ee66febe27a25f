// Replies that wait in the outbox of a seat.
ghost use Rattle.std.specs.Prelude.{◌≡◌, ◌≤◌, ◌<◌, ◌+◌, ◌^◌, length, OnOk, OnErr};
ghost use Rattle.lt_live.specs.Seats.{IsCursorOf, TellsOutbox, HasReadOn, ReadsAll, ReadsMove, HasReadLine, HasNotReadLine};

use crate::ends::Seat;
use crate::reply::reply_to;
use lt_log::LongLog;
use lt_modes::Event;
use std::alloc::AllocError;

impl Seat {
    /// Gives the ring what waits, in order; false where the ring has no place for one.
    pub(crate) fn tell_waiting(&mut self) -> bool
        ensures { TellsOutbox result self.old self.new }
    {
        while !self.waiting.is_empty() {
            if self.replies.is_full() {
                return false;
            }
            if let Some(reply) = self.waiting.pop_front() {
                self.replies.push_reserved(reply);
            }
        }
        true
    }

    /// Puts the client's further replies of the log behind those that wait, so that the log's moves may be forgotten.
    /// Without memory as many as there was memory for.
    pub(crate) fn read_on(&mut self, log: &LongLog) -> Result<(), AllocError>
        requires { IsCursorOf log.now self.old }
        ensures on { HasReadOn log.now.entries self.old self.new }
        ensures all { OnOk result (ReadsAll log.now.entries self.old self.new) }
    {
        while self.moves < log.len() {
            self.read_move(log.events(self.moves))?;
            self.moves += 1;
            self.lines = 0;
        }
        Ok(())
    }

    // Puts the client's replies of one move behind those that wait.
    fn read_move(&mut self, lines: &[Event]) -> Result<(), AllocError>
        requires { self.old.lines ≤ length lines.now }
        ensures reads { ReadsMove lines.now self.old self.new }
        ensures all { OnOk result (self.new.lines ≡ length lines.now) }
    {
        while self.lines < lines.len() {
            self.read_next(lines[self.lines])?;
        }
        Ok(())
    }

    // Puts the reply of the next line, where it is the client's, behind those that wait.
    fn read_next(&mut self, line: Event) -> Result<(), AllocError>
        requires { self.old.lines + 1 < 2 ^ 64 }
        ensures ok { OnOk result (HasReadLine line self.old self.new) }
        ensures full { OnErr result (HasNotReadLine self.old self.new) }
    {
        if let Some(reply) = reply_to(self.client, line) {
            self.waiting.push_back(reply)?;
        }
        self.lines += 1;
        Ok(())
    }
}
