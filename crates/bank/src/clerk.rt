use crate::accounts::{Bank, transfer};
use lt_locks::{Caller, Command, Mode, Reply};

// How many transfers a clerk makes, how many commands each takes, and how many of these are locks, which come first.
const TRANSFERS: u32 = 42;

const PARTS: u32 = 6;

const LOCKS: u32 = 3;

/// Who makes a client's transfers, and how many commands it has given, and how many replies it was told.
#[derive(Drop)]
pub struct Clerk<'a> {
    bank: &'a Bank,
    client: u16,
    given: u32,
    told: u32,
}

impl Clerk<'_> {
    pub fn new<'a>(bank: &'a Bank, client: u16) -> Clerk<'a> {
        Clerk {
            bank,
            client,
            given: 0,
            told: 0,
        }
    }

    // Replies come in the order of the commands, one for each, and a lock has none before it is granted. So the third
    // reply of a transfer says that all three locks are held.
    fn note_reply(&mut self) {
        self.told = self.told.saturating_add(1);
        if self.told % PARTS == LOCKS {
            if let Some((from, to)) = self.bank.accounts_of(self.client, self.told / PARTS) {
                transfer(from, to);
            }
        }
    }

    // The command of this number, from 0. Each transfer locks the bank, by an intention, and then two accounts, the
    // one of the lesser set first: where all do so, nobody waits forever.
    fn command_at(&self, number: u32) -> Option<Command> {
        let (from, to) = self.bank.accounts_of(self.client, number / PARTS)?;
        let (first, second) = (from.set.min(to.set), from.set.max(to.set));
        let (intention, write) = (Mode::IntentionWrite, Mode::Write);
        Some(match number % PARTS {
            0 => lock(self.bank.set, intention),
            1 => lock(first, write),
            2 => lock(second, write),
            3 => unlock(second, write),
            4 => unlock(first, write),
            _ => unlock(self.bank.set, intention),
        })
    }
}

impl Caller for Clerk<'_> {
    // No lock is given up before the money is moved.
    fn step(&mut self, reply: Option<Reply>) -> Option<Command> {
        if reply.is_some() {
            self.note_reply();
        }
        let is_locking = self.given % PARTS == LOCKS && self.told < self.given;
        if is_locking || self.given >= TRANSFERS * PARTS {
            return None;
        }
        let command = self.command_at(self.given)?;
        self.given += 1;
        Some(command)
    }

    fn is_done(&self) -> bool {
        self.told >= TRANSFERS * PARTS
    }
}

pub fn lock(set: u32, mode: Mode) -> Command {
    Command::Lock { set, mode }
}

pub fn unlock(set: u32, mode: Mode) -> Command {
    Command::Unlock { set, mode }
}
