use anyhow::{Result, bail};
use lt_locks::Script;
use std::alloc::Global;
use std::sync::atomic::{AtomicU64, Ordering};

const NAMES: [&str; 4] = ["wages", "rent", "food", "savings"];

// What is in each account at first, and how much is moved.
const FIRST: u64 = 1000;

const AMOUNT: u64 = 5;

/// An account, and the set by which it is locked.
#[derive(Drop)]
pub struct Account {
    pub set: u32,
    pub money: AtomicU64,
}

/// The bank's accounts, and the set that stands for all of them.
#[derive(Drop)]
pub struct Bank {
    pub set: u32,
    pub accounts: Vec<Account>,
}

fn set_named(script: &Script, name: &str) -> Result<u32> {
    match script.set_number(name.as_bytes()) {
        Some(set) => Ok(set),
        None => bail!("the script has no set {name}"),
    }
}

impl Bank {
    pub fn new(alloc: Global, script: &Script) -> Result<Bank> {
        let set = set_named(script, "bank")?;
        let mut accounts = Vec::new(alloc);
        for name in NAMES {
            accounts.push(Account {
                set: set_named(script, name)?,
                money: AtomicU64::new(FIRST),
            })?;
        }
        Ok(Bank { set, accounts })
    }

    /// The accounts from which and to which the client's transfer of this number moves money.
    pub fn accounts_of(&self, client: u16, number: u32) -> Option<(&Account, &Account)> {
        let from = (u32::from(client) + number % 4) % 4;
        let to = (from + 1) % 4;
        Some((
            self.accounts.get(from as usize)?,
            self.accounts.get(to as usize)?,
        ))
    }

    /// What is in all accounts.
    pub fn sum(&self) -> u64 {
        let mut sum: u64 = 0;
        for account in &self.accounts {
            sum = sum.saturating_add(account.money.load(Ordering::SeqCst));
        }
        sum
    }
}

/// Moves money in four steps, and nothing here keeps two callers apart. So it is called while locks of both are held.
pub fn transfer(from: &Account, to: &Account) {
    let less = from.money.load(Ordering::SeqCst).saturating_sub(AMOUNT);
    let more = to.money.load(Ordering::SeqCst).saturating_add(AMOUNT);
    from.money.store(less, Ordering::SeqCst);
    to.money.store(more, Ordering::SeqCst);
}

/// What is in all accounts as long as nobody is in the middle of a transfer.
pub fn total() -> u64 {
    FIRST * 4
}
