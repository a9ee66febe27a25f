use crate::running::called;
use crate::telling::{holds, same};
use lt_runner::Open;
use lt_serve::{Setup, Status, USUAL};

pub(crate) const THREE_READERS: &str = "nodes 3\n\
set s\n\
client a at 0\n\
client b at 1\n\
client c at 2\n\
a lock s read\n\
b lock s read\n\
c lock s read\n";

// A ring holds one letter, and the threads make no move, so that each is made between two rounds.
#[test]
fn three_readers_on_threads(rt: HostRuntime) {
    let setup = Setup {
        moves: 1_000,
        capacity: 1,
        patience: 0,
        workers: 8,
    };
    let (served, _sink) = called(&rt, rt.alloc(), setup, &["run"], THREE_READERS, &Open);
    same(&rt, served.status, Status::Done);
    same(&rt, served.run.len(), 7);
}

// Each node makes its first move, and the first one then has letters to take.
const CUT: &[u8] = b"move 1 0 act a\n\
grant a s read\n\
move 1 1 act b\n\
wait b s read\n\
move 1 2 act c\n\
wait c s read\n\
cut 0\n";

// Each node may make one move.
#[test]
fn cut_on_threads(rt: HostRuntime) {
    let setup = Setup {
        moves: 1,
        capacity: 1_024,
        patience: 0,
        workers: 2,
    };
    let (served, sink) = called(&rt, rt.alloc(), setup, &["run"], THREE_READERS, &Open);
    same(&rt, served.status, Status::Cut { node: 0 });
    same(&rt, sink.bytes.as_slice(), CUT);
}

const TWO_WRITERS: &str = "nodes 1\n\
set s\n\
client a at 0\n\
client b at 0\n\
a lock s write\n\
a unlock s write\n\
b lock s write\n\
b unlock s write\n";

const CUT_AFTER_THREE: &[u8] = b"move 1 0 act a\n\
grant a s write\n\
move 2 0 act b\n\
wait b s write\n\
move 3 0 act a\n\
unlock a s write\n\
grant b s write\n\
cut 0\n";

// A node may make three moves, and the fourth is left.
#[test]
fn cut_in_the_fixed_order(rt: HostRuntime) {
    let setup = Setup { moves: 3, ..USUAL };
    let (served, sink) = called(
        &rt,
        rt.alloc(),
        setup,
        &["sim", "first"],
        TWO_WRITERS,
        &Open,
    );
    same(&rt, served.status, Status::Cut { node: 0 });
    same(&rt, sink.bytes.as_slice(), CUT_AFTER_THREE);
}

// Whether some line of the journal begins so.
fn has_line(journal: &str, begin: &str) -> bool {
    journal.lines().any(|line| line.starts_with(begin))
}

// One worker, who never looks twice, and rings of one letter. The script that is drawn gives each lock back.
#[test]
fn drawn_script_by_one_worker(rt: HostRuntime) {
    let words = ["make", "16", "64", "256", "7"];
    let (made, script) = called(&rt, rt.alloc(), USUAL, &words, "", &Open);
    same(&rt, made.status, Status::Done);
    let setup = Setup {
        capacity: 1,
        patience: 0,
        workers: 1,
        ..USUAL
    };
    let text = str::from_utf8(script.bytes.as_slice()).expect(&rt, "text");
    let (served, sink) = called(&rt, rt.alloc(), setup, &["run"], text, &Open);
    same(&rt, served.status, Status::Done);
    let journal = str::from_utf8(sink.bytes.as_slice()).expect(&rt, "text");
    holds(&rt, has_line(journal, "end "));
    same(&rt, has_line(journal, "held "), false);
    same(&rt, has_line(journal, "waiting "), false);
}
