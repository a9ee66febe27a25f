//! A bank: an example of callers that prove nothing.
//!
//! Clerks move money between accounts, and an auditor adds them up, each under locks, while the nodes are at work. The
//! program prints what is in the accounts, and whether the journal of all this is one of a run.
//!
//! With a number it is a bank of 15 branches, whose 300 sets are more than a text may have: visitors make errands that
//! are drawn from the number, and the program prints the script and the journal.
#![tactic(auto)]

mod accounts;
mod auditor;
mod branches;
mod caller;
mod clerk;
mod visitor;

use accounts::Bank;
use anyhow::{Result, bail};
use branches::{CLIENTS, branches};
use caller::{BankCaller, callers_of};
use lt_locks::{
    Called, Caller, ReaderSource, Script, Served, Sink, Source, WriterSink, check_input, read_all,
    serve_callers, write_all,
};
use std::alloc::{AllocError, Global};
use std::io::Print;
use std::sync::atomic::Ordering;
use std::thread::Threads;
use std::{env, str};
use visitor::Visitor;

// The most bytes of a script, the most moves of a node, the threads of callers, with as many of stations, and the most
// rounds.
const MOST_BYTES: usize = 1 << 16;

const MOST_MOVES: u32 = 1 << 16;

const THREADS: usize = 4;

const ROUNDS: u32 = 10_000;

fn print_accounts<R: Print>(rt: &R, script: &Script, bank: &Bank) -> Result<()> {
    for account in &bank.accounts {
        if account.set < script.sets() {
            let name = str::from_utf8(script.set_name(account.set))?;
            println!(rt; "{name}: {}", account.money.load(Ordering::SeqCst))?;
        }
    }
    Ok(())
}

// Whether all callers came to an end, and the auditor found no wrong sum.
fn look_at(callers: &[Called<BankCaller<'_>>]) -> Result<()> {
    for called in callers {
        if !called.caller.is_done() {
            bail!("the callers didn't come to an end");
        }
        if called.caller.wrong() > 0 {
            bail!("an audit found a wrong sum");
        }
    }
    Ok(())
}

fn script_of<S: Source>(alloc: Global, source: &mut S) -> Result<Script> {
    let text = read_all(alloc, source, MOST_BYTES)?;
    Ok(lt_locks::read(alloc, &text)?)
}

// The script and the journal of the run, once all callers came to their end.
fn text_of(alloc: Global, served: &Served<BankCaller<'_>>) -> Result<Vec<u8>> {
    look_at(&served.callers)?;
    Ok(served.text(alloc)?)
}

// Lets the clerks and the auditor work: the script and the journal of the run.
fn work<R: Threads + Sync>(rt: &R, alloc: Global, script: &Script, bank: &Bank) -> Result<Vec<u8>> {
    let callers = callers_of(alloc, script, bank)?;
    let served = serve_callers(rt, alloc, script, callers, MOST_MOVES, THREADS, ROUNDS)?;
    text_of(alloc, &served)
}

// A visitor for each client of the branches.
fn visitors_of(alloc: Global, seed: u64) -> Result<Vec<Visitor>, AllocError> {
    (0..CLIENTS)
        .map(|client| Visitor::new(client, seed))
        .collect(alloc)
}

// The script and the journal of the run, once all visitors came to their end.
fn text_of_visits(alloc: Global, served: &Served<Visitor>) -> Result<Vec<u8>> {
    if !served.all_done() {
        bail!("the visitors didn't come to an end");
    }
    Ok(served.text(alloc)?)
}

// Lets visitors make errands at the branches: the script and the journal of the run.
fn visit<R: Threads + Sync>(rt: &R, alloc: Global, seed: u64) -> Result<Vec<u8>> {
    let script = branches(alloc)?;
    let visitors = visitors_of(alloc, seed)?;
    let served = serve_callers(rt, alloc, &script, visitors, MOST_MOVES, THREADS, ROUNDS)?;
    text_of_visits(alloc, &served)
}

// Writes the script and the journal of the errands that are drawn from this number.
fn write_visits<R: Threads + Sync, K: Sink>(
    rt: &R,
    alloc: Global,
    sink: &mut K,
    number: &str,
) -> Result<()> {
    let text = visit(rt, alloc, number.parse()?)?;
    Ok(write_all(sink, &text)?)
}

// Whether the journal of this text is one of a run of its script.
fn is_of_run(alloc: Global, text: &[u8]) -> bool {
    check_input(alloc, &mut ReaderSource::new(text)).is_ok()
}

fn print_day<R: Print>(
    rt: &R,
    alloc: Global,
    script: &Script,
    bank: &Bank,
    text: &[u8],
) -> Result<()> {
    print_accounts(rt, script, bank)?;
    println!(rt; "all together: {}", bank.sum())?;
    if !is_of_run(alloc, text) {
        bail!("the journal isn't one of a run");
    }
    println!(rt; "the journal is accepted")?;
    Ok(())
}

// Lets the clerks and the auditor work at the accounts of a script, and prints what comes of it.
fn keep_accounts<R: Threads + Sync + Print, S: Source>(
    rt: &R,
    alloc: Global,
    source: &mut S,
) -> Result<()> {
    let script = script_of(alloc, source)?;
    let bank = Bank::new(alloc, &script)?;
    let text = work(rt, alloc, &script, &bank)?;
    print_day(rt, alloc, &script, &bank, &text)
}

fn main(rt: HostRuntime) -> Result<()> {
    let alloc = rt.alloc();
    let number = env::args(&rt)?.nth(1);
    match number {
        Some(number) => write_visits(&rt, alloc, &mut WriterSink::new(rt.stdout()), &number),
        None => keep_accounts(&rt, alloc, &mut ReaderSource::new(rt.stdin())),
    }
}
