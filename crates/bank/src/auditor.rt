use crate::accounts::{Bank, total};
use crate::clerk::{lock, unlock};
use lt_locks::{Caller, Command, Mode, Reply};

const AUDITS: u32 = 20;

/// Who locks the whole bank, so that nobody can move money, and adds up the accounts, again and again: how many
/// commands it has given, how many replies it was told, and how often the sum was wrong.
#[derive(Drop)]
pub struct Auditor<'a> {
    bank: &'a Bank,
    given: u32,
    told: u32,
    pub wrong: u32,
}

impl Auditor<'_> {
    pub fn new<'a>(bank: &'a Bank) -> Auditor<'a> {
        Auditor {
            bank,
            given: 0,
            told: 0,
            wrong: 0,
        }
    }

    // Every other reply says that the bank is locked.
    fn note_reply(&mut self) {
        self.told = self.told.saturating_add(1);
        if self.told % 2 == 1 && self.bank.sum() != total() {
            self.wrong = self.wrong.saturating_add(1);
        }
    }
}

impl Caller for Auditor<'_> {
    fn step(&mut self, reply: Option<Reply>) -> Option<Command> {
        if reply.is_some() {
            self.note_reply();
        }
        if self.told < self.given || self.given >= AUDITS * 2 {
            return None;
        }
        self.given += 1;
        Some(if self.given % 2 == 1 {
            lock(self.bank.set, Mode::Read)
        } else {
            unlock(self.bank.set, Mode::Read)
        })
    }

    fn is_done(&self) -> bool {
        self.told >= AUDITS * 2
    }
}
