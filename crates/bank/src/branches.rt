use anyhow::{Result, bail};
use lt_locks::{Script, SetByName};
use std::alloc::Global;

/// How many branches the bank has, and how many accounts each: the sets of a branch, which are a family, are twenty.
pub const BRANCHES: u32 = 15;

pub const ACCOUNTS: u32 = 19;

/// How many clients it has, of which those with the same number modulo `NODES` are on one node.
pub const CLIENTS: u16 = 12;

pub const NODES: u16 = 4;

const TEXT: &str = "version 2
nodes 4
client c0 at 0
client c1 at 1
client c2 at 2
client c3 at 3
client c4 at 0
client c5 at 1
client c6 at 2
client c7 at 3
client c8 at 0
client c9 at 1
client c10 at 2
client c11 at 3
";

/// The set of a branch.
pub fn branch(number: u32) -> u32 {
    (number % BRANCHES) * (ACCOUNTS + 1)
}

/// The set of an account.
pub fn account(number: u32) -> u32 {
    let of_branch = number / BRANCHES % ACCOUNTS;
    branch(number).saturating_add(1 + of_branch)
}

fn add(script: &mut Script, name: &str, parent: Option<u32>) -> Result<u32> {
    match script.set_by_name(name.as_bytes(), parent)? {
        SetByName::Set(set) => Ok(set),
        _ => bail!("{name} can't be a set"),
    }
}

fn add_account(
    alloc: Global,
    script: &mut Script,
    number: u32,
    account: u32,
    parent: u32,
) -> Result<u32> {
    let name = format!(in alloc; "b{number}.{account}")?;
    add(script, &name, Some(parent))
}

fn add_branch(alloc: Global, script: &mut Script, number: u32) -> Result<()> {
    let name = format!(in alloc; "b{number}")?;
    let parent = add(script, &name, None)?;
    for account in 0..ACCOUNTS {
        add_account(alloc, script, number, account, parent)?;
    }
    Ok(())
}

/// The script of a bank with all these branches: 300 sets, more than a text may have.
pub fn branches(alloc: Global) -> Result<Script> {
    let mut script = lt_locks::read(alloc, TEXT.as_bytes())?;
    for number in 0..BRANCHES {
        add_branch(alloc, &mut script, number)?;
    }
    Ok(script)
}
