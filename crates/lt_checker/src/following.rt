ghost use Rattle.std.specs.Prelude.{◌≡◌, [], IfOk, IsTrue, IsErr};
ghost use Rattle.lt_law_journals.specs.Checking.{by_move, place_after};
ghost use Rattle.lt_checker.specs.Checker.{IsPlace, LedTo};
ghost use Rattle.lt_checker.specs.Due.{due_lines};
ghost use Rattle.lt_checker.specs.First.{LedByFirst, goes_on};
ghost use Rattle.lt_text.specs.Text.{is_line_end, HasNone};

use crate::due::{Due, after_event_line, is_event_line, is_line, last_event, push_closing};
use crate::moves::first_move;
use lt_journal::{Line, Wording, read_line};
use lt_world::{Choice, World};
use std::alloc::{AllocError, Global};

/// Goes on by one line, and tells whether it isn't bad: whether it is the first line that is due, or where none is
/// due the line of a next move. After a bad line nothing is known of what is kept.
pub(crate) fn follow(
    alloc: Global,
    wording: &Wording,
    world: &mut World,
    due: &mut Due,
    line: &[u8],
) -> Result<bool, AllocError>
    requires { IsPlace wording.now world.old (due_lines wording.now world.old.run due.old.told due.old.later.items) }
    ensures place { IfOk result (λ good. IsTrue good
        → IsPlace wording.now world.new (due_lines wording.now world.new.run due.new.told due.new.later.items)) }
    ensures led { IfOk result (λ good. LedTo (place_after wording.now
        (record { run = world.old.run; due = due_lines wording.now world.old.run due.old.told due.old.later.items }) line.now)
        good world.new.run (due_lines wording.now world.new.run due.new.told due.new.later.items)) }
{
    if let Some(event) = last_event(world.run(), due.told) {
        due.told += 1;
        return Ok(is_event_line(&mut due.words, wording, event, line)?);
    }
    let Some(expected) = due.later.pop_front() else {
        let told = read_line(wording.script(), line);
        return Ok(next_move(alloc, wording, world, due, told)?);
    };
    Ok(is_line(&mut due.words, wording, expected, line)?)
}

/// Goes on by the first line of the bytes, and tells whether it isn't bad and what stands after its line end, if it is
/// found as the line of an event that is due or, where no line is due, as that of a move.
#[inline(always)]
pub(crate) fn follow_first<'a>(
    alloc: Global,
    wording: &Wording,
    world: &mut World,
    due: &mut Due,
    bytes: &'a [u8],
) -> Result<Option<(bool, &'a [u8])>, AllocError>
    requires { IsPlace wording.now world.old (due_lines wording.now world.old.run due.old.told due.old.later.items) }
    ensures place { IfOk result (λ found. IsTrue (goes_on found)
        → IsPlace wording.now world.new (due_lines wording.now world.new.run due.new.told due.new.later.items)) }
    ensures led { IfOk result (λ found. LedByFirst wording.now
        (record { run = world.old.run; due = due_lines wording.now world.old.run due.old.told due.old.later.items })
        bytes.now found
        (record { run = world.new.run; due = due_lines wording.now world.new.run due.new.told due.new.later.items })) }
    ensures ends { IsErr result → ¬ HasNone is_line_end bytes.now }
{
    if let Some(event) = last_event(world.run(), due.told) {
        let Some(later) = after_event_line(&mut due.words, wording, event, bytes) else {
            return Ok(None);
        };
        due.told += 1;
        return Ok(Some((true, later)));
    }
    if !due.later.is_empty() {
        return Ok(None);
    }
    let Some((line, later)) = first_move(wording.script(), bytes) else {
        return Ok(None);
    };
    let is_good = next_move(alloc, wording, world, due, line)?;
    Ok(Some((is_good, later)))
}

// Makes the move that the line tells, where it is the next one.
#[inline(always)]
fn next_move(
    alloc: Global,
    wording: &Wording,
    world: &mut World,
    due: &mut Due,
    line: Line,
) -> Result<bool, AllocError>
    requires place { IsPlace wording.now world.old [] }
    requires none_due { due.old.later.items ≡ [] }
    ensures place { IfOk result (λ good. IsTrue good
        → IsPlace wording.now world.new (due_lines wording.now world.new.run due.new.told due.new.later.items)) }
    ensures led { IfOk result (λ good. LedTo (by_move wording.now world.old.run line) good world.new.run
        (due_lines wording.now world.new.run due.new.told due.new.later.items)) }
{
    let Line::Move { clock, node, step } = line else {
        return Ok(false);
    };
    let choice = Choice { node, step };
    if !world.enabled(choice) {
        return Ok(false);
    }
    world.step(choice)?;
    let last = world.run().len() - 1;
    if world.run().made(last).stamp.clock != clock {
        return Ok(false);
    }
    due.told = 0;
    push_closing(alloc, &mut due.later, wording.script(), world)?;
    Ok(true)
}
