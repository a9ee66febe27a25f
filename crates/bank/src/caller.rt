use crate::accounts::Bank;
use crate::auditor::Auditor;
use crate::clerk::Clerk;
use lt_locks::{Caller, Command, Reply, Script};
use std::alloc::{AllocError, Global};

// The client who adds up the accounts.
const AUDITOR: &str = "eve";

/// Who acts for a client.
#[derive(Drop)]
pub enum BankCaller<'a> {
    Clerk(Clerk<'a>),
    Auditor(Auditor<'a>),
}

impl Caller for BankCaller<'_> {
    fn step(&mut self, reply: Option<Reply>) -> Option<Command> {
        match self {
            BankCaller::Clerk(clerk) => clerk.step(reply),
            BankCaller::Auditor(auditor) => auditor.step(reply),
        }
    }

    fn is_done(&self) -> bool {
        match self {
            BankCaller::Clerk(clerk) => clerk.is_done(),
            BankCaller::Auditor(auditor) => auditor.is_done(),
        }
    }
}

impl BankCaller<'_> {
    /// How often an audit found a wrong sum.
    pub fn wrong(&self) -> u32 {
        match self {
            BankCaller::Clerk(_) => 0,
            BankCaller::Auditor(auditor) => auditor.wrong,
        }
    }
}

/// A caller for each client.
pub fn callers_of<'a>(
    alloc: Global,
    script: &Script,
    bank: &'a Bank,
) -> Result<Vec<BankCaller<'a>>, AllocError> {
    let auditor = script.client_number(AUDITOR.as_bytes());
    let mut callers = Vec::new(alloc);
    for client in 0..script.clients() {
        callers.push(if auditor == Some(client) {
            BankCaller::Auditor(Auditor::new(bank))
        } else {
            BankCaller::Clerk(Clerk::new(bank, client))
        })?;
    }
    Ok(callers)
}
