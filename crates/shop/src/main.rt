//! A shop, as a first program that locks: a caller for each client buys items, each under locks.
//!
//! It reads a script, and prints what is in stock at the end and that its journal is accepted; or, with the word
//! `journal`, its script and journal, as `lockrun check` reads them.
#![tactic(auto)]

use anyhow::{Result, bail};
use lt_locks::{
    Caller, Command, Mode, ReaderSource, Reply, Script, Served, Source, WriterSink, check_input,
    read_all, serve_callers, write_all,
};
use std::alloc::Global;
use std::env;
use std::io::Print;
use std::sync::atomic::{AtomicU64, Ordering};
use std::thread::Threads;

// The most bytes of a script, the most moves of a node, the threads of callers, with as many of nodes, and the most
// rounds.
const MOST_BYTES: usize = 1 << 16;

const MOST_MOVES: u32 = 1 << 16;

const THREADS: usize = 3;

const ROUNDS: u32 = 100_000;

// How many there are of each item, how many a caller buys, and how many commands each purchase takes.
const STOCK: u64 = 100;

const PURCHASES: u32 = 20;

const PARTS: u32 = 5;

const ITEMS: [&str; 4] = ["pens", "cups", "mats", "bags"];

// The set that an item is locked by, and how many are in stock.
#[derive(Drop)]
struct Item {
    set: u32,
    stock: AtomicU64,
}

#[derive(Drop)]
struct Shop {
    order: u32,
    items: Vec<Item>,
}

// Who buys for a client: how many commands it gave, how many replies it was told, and the stock that it read last.
#[derive(Drop)]
struct Buyer<'a> {
    shop: &'a Shop,
    client: u16,
    given: u32,
    told: u32,
    stock: u64,
}

fn set_named(script: &Script, name: &str) -> Result<u32> {
    match script.set_number(name.as_bytes()) {
        Some(set) => Ok(set),
        None => bail!("the script has no set {name}"),
    }
}

fn shop_of(alloc: Global, script: &Script) -> Result<Shop> {
    let mut items = Vec::new(alloc);
    for name in ITEMS {
        items.push(Item {
            set: set_named(script, name)?,
            stock: AtomicU64::new(STOCK),
        })?;
    }
    Ok(Shop {
        order: set_named(script, "order")?,
        items,
    })
}

// Reads the stock under an upgrade, which lets others read, and writes one less under a write.
fn buy(part: u32, order: u32, item: &Item, stock: &mut u64) -> Command {
    match part {
        0 => lock(order, Mode::IntentionWrite),
        1 => lock(item.set, Mode::Upgrade),
        2 => {
            *stock = item.stock.load(Ordering::SeqCst);
            change(item.set, Mode::Upgrade, Mode::Write)
        }
        3 => {
            item.stock.store(stock.saturating_sub(1), Ordering::SeqCst);
            unlock(item.set, Mode::Write)
        }
        _ => unlock(order, Mode::IntentionWrite),
    }
}

impl Buyer<'_> {
    fn new<'a>(shop: &'a Shop, client: u16) -> Buyer<'a> {
        Buyer {
            shop,
            client,
            given: 0,
            told: 0,
            stock: 0,
        }
    }
}

impl Caller for Buyer<'_> {
    // Each command is given once the one before it is answered; each caller begins with another item.
    fn step(&mut self, reply: Option<Reply>) -> Option<Command> {
        if reply.is_some() {
            self.told = self.told.saturating_add(1);
        }
        if self.told < self.given || self.given >= PURCHASES * PARTS {
            return None;
        }
        let (purchase, part) = (self.given / PARTS, self.given % PARTS);
        let place = (purchase % 4 + u32::from(self.client)) % 4;
        let item = self.shop.items.get(place as usize)?;
        self.given += 1;
        Some(buy(part, self.shop.order, item, &mut self.stock))
    }

    fn is_done(&self) -> bool {
        self.told >= PURCHASES * PARTS
    }
}

fn lock(set: u32, mode: Mode) -> Command {
    Command::Lock { set, mode }
}

fn change(set: u32, gives_up: Mode, mode: Mode) -> Command {
    Command::Change {
        set,
        gives_up,
        mode,
    }
}

fn unlock(set: u32, mode: Mode) -> Command {
    Command::Unlock { set, mode }
}

fn print_stock<R: Print>(rt: &R, shop: &Shop) -> Result<()> {
    for (name, item) in ITEMS.iter().zip(&shop.items) {
        println!(rt; "{name}: {}", item.stock.load(Ordering::SeqCst))?;
    }
    Ok(())
}

fn script_of<S: Source>(alloc: Global, source: &mut S) -> Result<Script> {
    let text = read_all(alloc, source, MOST_BYTES)?;
    Ok(lt_locks::read(alloc, &text)?)
}

fn text_of(alloc: Global, served: &Served<Buyer<'_>>) -> Result<Vec<u8>> {
    if !served.callers.iter().all(|called| called.caller.is_done()) {
        bail!("a caller gave up");
    }
    Ok(served.text(alloc)?)
}

// Lets a buyer for each client buy: the script and the journal of the run.
fn sell<R: Threads + Sync>(rt: &R, alloc: Global, script: &Script, shop: &Shop) -> Result<Vec<u8>> {
    let buyers = (0..script.clients())
        .map(|client| Buyer::new(shop, client))
        .collect(alloc)?;
    let served = serve_callers(rt, alloc, script, buyers, MOST_MOVES, THREADS, ROUNDS)?;
    text_of(alloc, &served)
}

fn print_sale<R: Print>(rt: &R, alloc: Global, shop: &Shop, text: &[u8]) -> Result<()> {
    print_stock(rt, shop)?;
    if check_input(alloc, &mut ReaderSource::new(text)).is_err() {
        bail!("the journal isn't one of a run");
    }
    println!(rt; "the journal is accepted")?;
    Ok(())
}

fn main(rt: HostRuntime) -> Result<()> {
    let alloc = rt.alloc();
    let asks_journal = env::args(&rt)?
        .skip(1)
        .any(|word| word.as_str() == "journal");
    let script = script_of(alloc, &mut ReaderSource::new(rt.stdin()))?;
    let shop = shop_of(alloc, &script)?;
    let text = sell(&rt, alloc, &script, &shop)?;
    if asks_journal {
        return Ok(write_all(&mut WriterSink::new(rt.stdout()), &text)?);
    }
    print_sale(&rt, alloc, &shop, &text)
}
