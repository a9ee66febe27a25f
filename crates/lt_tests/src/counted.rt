use crate::telling::{holds, same};
use lt_modes::{Ask, Mode, ModeSet, Stamp};
use lt_queue::Queue;
use lt_table::{Pending, Table};
use std::process::Abort;

// A stamp of node 1.
fn at(clock: u64) -> Stamp {
    Stamp { clock, node: 1 }
}

fn ask_for(client: u16, mode: Mode) -> Ask {
    Ask {
        client,
        node: 1,
        mode,
        gives_up: None,
        holder: false,
        stamp: at(u64::from(client)),
    }
}

// Node 1 owes word of a copy for the ask with this stamp, which is for the mode read.
fn owe_read<R: Abort>(rt: &R, table: &mut Table, stamp: Stamp) {
    holds(rt, 0 < table.spare());
    table.owe(1, stamp, Mode::Read);
}

fn enter<R: Abort>(rt: &R, queue: &mut Queue, ask: Ask) {
    holds(rt, queue.len() < queue.room());
    queue.insert(ask);
}

#[test]
fn a_table_counts_the_nodes_with_a_mode(rt: HostRuntime) {
    let read = ModeSet::one(Mode::Read);
    let none = ModeSet::empty();
    let mut pending = Pending::new();
    let mut table = Table::new(rt.alloc(), 2).expect(&rt, "memory");
    table.reserve(2).expect(&rt, "memory");
    same(&rt, table.nodes_with(Mode::Read), 0);

    owe_read(&rt, &mut table, at(2));
    same(&rt, table.nodes_with(Mode::Read), 1);
    owe_read(&rt, &mut table, at(3));
    same(&rt, table.nodes_with(Mode::Read), 1);
    same(&rt, table.nodes_with(Mode::Write), 0);

    pending.push(at(3));
    holds(&rt, table.tell(1, read, &pending, at(4)));
    same(&rt, table.nodes_with(Mode::Read), 1);
    holds(&rt, table.tell(1, none, &pending, at(5)));
    same(&rt, table.nodes_with(Mode::Read), 1);

    let answered = Pending::new();
    holds(&rt, !table.tell(1, none, &answered, at(4)));
    same(&rt, table.nodes_with(Mode::Read), 1);
    holds(&rt, table.tell(1, none, &answered, at(6)));
    same(&rt, table.nodes_with(Mode::Read), 0);
}

#[test]
fn a_queue_counts_the_asks_for_a_mode(rt: HostRuntime) {
    let mut queue = Queue::new(rt.alloc(), 3).expect(&rt, "memory");
    same(&rt, queue.asked(Mode::Read), 0);

    enter(&rt, &mut queue, ask_for(0, Mode::Read));
    enter(&rt, &mut queue, ask_for(1, Mode::Write));
    enter(&rt, &mut queue, ask_for(2, Mode::Read));
    same(&rt, queue.asked(Mode::Read), 2);
    same(&rt, queue.asked(Mode::Write), 1);
    same(&rt, queue.asked(Mode::Upgrade), 0);

    holds(&rt, 0 < queue.len());
    same(&rt, queue.remove(0).client, 0);
    same(&rt, queue.asked(Mode::Read), 1);
    same(&rt, queue.asked(Mode::Write), 1);
}
