use crate::telling::{holds, same};
use lt_checker::{Checker, ReplayError, replay};
use lt_merge::Run;
use lt_script::Script;
use std::alloc::Global;
use std::process::Abort;

const SCRIPT: &[u8] = b"nodes 2\n\
set s\n\
client a at 0\n\
client b at 1\n\
a lock s intention_read\n\
b lock s read\n";

// A token that moves once.
const JOURNAL: &[u8] = b"move 1 0 act a\n\
grant a s intention_read\n\
move 1 1 act b\n\
wait b s read\n\
move 2 0 take 1\n\
token s 1 1\n\
move 3 1 take 0\n\
grant b s read\n\
freeze s 0 1 none\n\
move 4 0 take 1\n\
held a s intention_read 1\n\
held b s read 1\n\
owner s 1 1\n\
end 5\n";

fn script<R: Abort>(rt: &R, alloc: Global) -> Script {
    lt_script::read(alloc, SCRIPT).expect(rt, "a script")
}

#[test]
fn replays_a_journal(rt: HostRuntime) {
    let script = script(&rt, rt.alloc());
    let lines = lt_journal::read(rt.alloc(), &script, JOURNAL).expect(&rt, "memory");
    let run = replay(rt.alloc(), &script, &lines).expect(&rt, "a run");
    same(&rt, run.expect(&rt, "a short script").len(), 5);
}

// What a checker says of the journal without so many last bytes, in pieces of three bytes.
fn checked<R: Abort>(rt: &R, alloc: Global, without: usize) -> Result<Run, ReplayError> {
    let script = script(rt, alloc);
    let checker = Checker::new(alloc, &script).expect(rt, "memory");
    let mut checker = checker.expect(rt, "a short script");
    let (front, _) = JOURNAL.split_at(JOURNAL.len().saturating_sub(without));
    for piece in front.chunks(3) {
        same(rt, checker.feed(piece), Ok(()));
    }
    checker.end()
}

// The last line is whole without its line end, but not without its last digit.
#[test]
fn checks_a_journal_in_pieces(rt: HostRuntime) {
    holds(&rt, checked(&rt, rt.alloc(), 0).is_ok());
    holds(&rt, checked(&rt, rt.alloc(), 1).is_ok());
    let refused = checked(&rt, rt.alloc(), 2).err();
    same(&rt, refused, Some(ReplayError::Bad { line: 14 }));
}
