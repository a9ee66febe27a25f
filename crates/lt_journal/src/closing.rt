ghost use Rattle.std.specs.Prelude.{◌≡◌, ◌<◌, ◌++◌, ◌∷◌, [], List, None, IfOk, OnOk, length};
ghost use Rattle.lt_modes.specs.declared.event.Event.{Event as AnyEvent};
ghost use Rattle.lt_spec.specs.Holdings.{holdings, wanted, owner_of, lines_of};
ghost use Rattle.lt_tally.specs.LockTable.{IsTallied};
ghost use Rattle.lt_journal.specs.RunLines.{held_line, held_in_set, held_by, held_lines, waiting_line, waiting_lines, owner_line, owner_lines, closing_lines};

use crate::line::{Line, push_line};
use lt_merge::Run;
use lt_modes::{Link, MODES};
use lt_script::Script;
use lt_tally::{Holding, Tally, tally_of};
use std::alloc::{AllocError, Global};

/// The lines after the moves of a run that came to rest: the locks held, the clients that wait, the owners, and the
/// number of moves. The time that it takes is linear in the run's events, and in the number of clients times that of
/// sets.
pub fn closing_lines(alloc: Global, script: &Script, run: &Run) -> Result<Vec<Line>, AllocError>
    ensures { IfOk result (λ lines. lines.items ≡ closing_lines script.now run.now.entries None) }
{
    let tally = tally_of(alloc, script, run)?;
    lines_at_rest(alloc, script, &tally, run)
}

/// The same, where the run comes to this tally.
pub(crate) fn lines_at_rest(
    alloc: Global,
    script: &Script,
    tally: &Tally,
    run: &Run,
) -> Result<Vec<Line>, AllocError>
    requires { IsTallied script.now tally.now (lines_of run.now.entries) }
    ensures { IfOk result (λ lines. lines.items ≡ closing_lines script.now run.now.entries None) }
{
    let mut lines = Vec::new(alloc);
    held_lines(&mut lines, script, tally)?;
    waiting_lines(&mut lines, script, tally)?;
    owner_lines(&mut lines, script, tally)?;
    let moves = u64::from(run.len());
    push_line(&mut lines, Line::End { count: moves })?;
    Ok(lines)
}

// Adds the lines of all locks, by client.
fn held_lines(lines: &mut Vec<Line>, script: &Script, tally: &Tally) -> Result<(), AllocError>
    ensures { OnOk result ((events : List AnyEvent)
        → IsTallied script.now tally.now events
        → lines.new.items ≡ lines.old.items ++ held_lines script.now (holdings script.now events)) }
{
    for client in 0..script.clients() {
        held_by(lines, script, tally, client)?;
    }
    Ok(())
}

// Adds the lines of the client's locks, by set.
fn held_by(
    lines: &mut Vec<Line>,
    script: &Script,
    tally: &Tally,
    client: u16,
) -> Result<(), AllocError>
    requires { client < length script.now.clients }
    ensures { OnOk result ((events : List AnyEvent)
        → IsTallied script.now tally.now events
        → lines.new.items ≡ lines.old.items ++ held_by script.now (holdings script.now events) client) }
{
    for set in 0..script.sets() {
        held_in_set(lines, script, tally, client, set)?;
    }
    Ok(())
}

// Adds the lines of the client's locks in a set, by mode.
fn held_in_set(
    lines: &mut Vec<Line>,
    script: &Script,
    tally: &Tally,
    client: u16,
    set: u32,
) -> Result<(), AllocError>
    requires client { client < length script.now.clients }
    requires set { set < length script.now.sets }
    ensures { OnOk result ((events : List AnyEvent)
        → IsTallied script.now tally.now events
        → lines.new.items ≡ lines.old.items ++ held_in_set (holdings script.now events) client set) }
{
    for mode in &MODES {
        let lock = Holding {
            client,
            set,
            mode: *mode,
        };
        held_line(lines, lock, tally.count(lock))?;
    }
    Ok(())
}

// Adds the line of so many locks, if there are some.
fn held_line(lines: &mut Vec<Line>, lock: Holding, count: usize) -> Result<(), AllocError>
    ensures { OnOk result (lines.new.items ≡ lines.old.items ++ held_line lock count) }
{
    if count == 0 {
        return Ok(());
    }
    push_line(
        lines,
        Line::Held {
            client: lock.client,
            set: lock.set,
            mode: lock.mode,
            count: count as u64,
        },
    )
}

// Adds the lines of the clients that wait, in order.
fn waiting_lines(lines: &mut Vec<Line>, script: &Script, tally: &Tally) -> Result<(), AllocError>
    ensures { OnOk result ((events : List AnyEvent)
        → IsTallied script.now tally.now events
        → lines.new.items ≡ lines.old.items ++ waiting_lines script.now (λ client. wanted client events)) }
{
    for client in 0..script.clients() {
        waiting_line(lines, tally.wanted(client))?;
    }
    Ok(())
}

// Adds the line of what a client waits for, if it waits.
fn waiting_line(lines: &mut Vec<Line>, wanted: Option<Holding>) -> Result<(), AllocError>
    ensures { OnOk result (lines.new.items ≡ lines.old.items ++ waiting_line wanted) }
{
    let Some(Holding { client, set, mode }) = wanted else {
        return Ok(());
    };
    push_line(lines, Line::Waiting { client, set, mode })
}

// Adds the lines of the sets' owners, in order.
fn owner_lines(lines: &mut Vec<Line>, script: &Script, tally: &Tally) -> Result<(), AllocError>
    ensures { OnOk result ((events : List AnyEvent)
        → IsTallied script.now tally.now events
        → lines.new.items ≡ lines.old.items ++ owner_lines script.now (λ set. owner_of set events)) }
{
    for set in 0..script.sets() {
        owner_line(lines, set, tally.owner(set))?;
    }
    Ok(())
}

// Adds the line of the set's owner.
fn owner_line(lines: &mut Vec<Line>, set: u32, owner: Link) -> Result<(), AllocError>
    ensures { OnOk result (lines.new.items ≡ lines.old.items ++ owner_line set owner) }
{
    push_line(
        lines,
        Line::Owner {
            set,
            node: owner.node,
            epoch: owner.epoch,
        },
    )
}
