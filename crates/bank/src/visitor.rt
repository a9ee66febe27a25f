use crate::branches::{ACCOUNTS, BRANCHES, CLIENTS, NODES, account, branch};
use crate::clerk::{lock, unlock};
use lt_gen::Draws;
use lt_locks::{Caller, Command, Mode, Reply};

// How many errands a visitor makes, and how many commands each takes.
const ERRANDS: u32 = 8;

const PARTS: u32 = 4;

// What a visitor does at one of the branches. None of them waits while it holds what another one waits for in turn.
enum Errand {
    // Locks the branch by an intention, and then an account.
    Account { intention: Mode, mode: Mode },
    // Tries accounts of the branch, and drops all that it got.
    Tries { mode: Mode },
    // Locks an account by an upgrade, and changes that to a write.
    Upgrade,
    // Locks the whole branch, and drops all locks of another client of its node there.
    Close { client: u16 },
}

/// Who makes errands at branches, drawn from a seed: how many commands it gave, and how many replies it was told.
#[derive(Drop)]
pub struct Visitor {
    client: u16,
    draws: Draws,
    // The numbers of the errand and of its account.
    errand: u32,
    account: u32,
    given: u32,
    told: u32,
}

impl Visitor {
    pub fn new(client: u16, seed: u64) -> Visitor {
        Visitor {
            client,
            draws: Draws::new(
                seed.wrapping_mul(u64::from(CLIENTS))
                    .wrapping_add(u64::from(client)),
            ),
            errand: 0,
            account: 0,
            given: 0,
            told: 0,
        }
    }

    fn draw_errand(&mut self) {
        self.errand = self.draws.draw(24);
        self.account = self.draws.draw(BRANCHES * ACCOUNTS);
    }

    fn errand(&self) -> Errand {
        match self.errand {
            0..6 => reading(Mode::Read),
            6..10 => writing(Mode::Write),
            10 => writing(Mode::IntentionWrite),
            11 => reading(Mode::IntentionRead),
            12 => writing(Mode::ReadIntentionWrite),
            13..16 => Errand::Tries { mode: Mode::Read },
            16..18 => Errand::Tries { mode: Mode::Write },
            18..21 => Errand::Upgrade,
            number => Errand::Close {
                client: self.client.wrapping_add(NODES * (number % 2) as u16) % CLIENTS,
            },
        }
    }

    // The command of this part of the errand.
    fn command(&self, part: u32) -> Command {
        let (first, set) = (branch(self.account), account(self.account));
        match self.errand() {
            Errand::Account { intention, mode } => match part {
                0 => lock(first, intention),
                1 => lock(set, mode),
                2 => unlock(set, mode),
                _ => unlock(first, intention),
            },
            Errand::Tries { mode } => match part {
                0..3 => Command::Try {
                    set: account(self.account.wrapping_add(part * BRANCHES)),
                    mode,
                },
                _ => drop_all(self.client, set),
            },
            Errand::Upgrade => upgrade(set, part),
            Errand::Close { client } => match part {
                0 => lock(first, Mode::Write),
                1 => drop_all(client, set),
                2 => unlock(first, Mode::Write),
                _ => drop_all(self.client, first),
            },
        }
    }
}

fn reading(mode: Mode) -> Errand {
    Errand::Account {
        intention: Mode::IntentionRead,
        mode,
    }
}

fn writing(mode: Mode) -> Errand {
    Errand::Account {
        intention: Mode::IntentionWrite,
        mode,
    }
}

fn upgrade(set: u32, part: u32) -> Command {
    match part {
        0 => lock(set, Mode::Upgrade),
        1 => Command::Change {
            set,
            gives_up: Mode::Upgrade,
            mode: Mode::Write,
        },
        2 => unlock(set, Mode::Write),
        _ => unlock(set, Mode::Upgrade),
    }
}

fn drop_all(client: u16, set: u32) -> Command {
    Command::DropAll { client, set }
}

impl Caller for Visitor {
    // Each command is given once the one before it is answered.
    fn step(&mut self, reply: Option<Reply>) -> Option<Command> {
        if reply.is_some() {
            self.told = self.told.saturating_add(1);
        }
        let given = self.given;
        if self.told < given || given >= ERRANDS * PARTS {
            return None;
        }
        if given % PARTS == 0 {
            self.draw_errand();
        }
        self.given = given + 1;
        Some(self.command(given % PARTS))
    }

    fn is_done(&self) -> bool {
        self.told >= ERRANDS * PARTS
    }
}
