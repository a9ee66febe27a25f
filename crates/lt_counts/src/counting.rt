// The lines of moves are counted.
ghost use Rattle.std.specs.Prelude.{◌≡◌, ◌∷◌, [], ◌<◌, ◌≤◌, length, drop, take};
ghost use Rattle.lt_counts.specs.Counting.{AddsLines, AddsMoves, letters_by, letters_taken, and_more};

use crate::counted::counted_as;
use lt_log::LongLog;
use lt_modes::{Event, Step};

/// Adds to the numbers of each set how many lines of the log's moves, from this place on, are counted as each
/// `Counted`, and to `taken` how many letters these moves take. The numbers of a set stand side by side, eight of them,
/// those of set 0 first; lines of a set that has no place there aren't counted.
///
/// A number that has come to 2^64 - 1 stays.
pub fn count_on(log: &LongLog, from: u64, taken: &mut u64, counts: &mut [u64])
    requires kept { log.now.gone ≤ from }
    requires inside { from ≤ length log.now.entries }
    ensures counts { AddsMoves (drop from log.now.entries) counts.old counts.new }
    ensures taken { taken.new ≡ and_more taken.old (letters_taken (drop from log.now.entries)) }
{
    for place in from..log.len() {
        count_move(log, place, taken, counts);
    }
}

// The move at this place.
fn count_move(log: &LongLog, place: u64, taken: &mut u64, counts: &mut [u64])
    requires kept { log.now.gone ≤ place }
    requires inside { place < length log.now.entries }
    ensures counts { AddsMoves (take 1 (drop place log.now.entries)) counts.old counts.new }
    ensures taken { taken.new ≡ and_more taken.old (letters_taken (take 1 (drop place log.now.entries))) }
{
    *taken = and_more(*taken, letters_by(log.made(place).step));
    count_lines(log.events(place), counts);
}

// How many letters the step takes.
fn letters_by(step: Step) -> u64
    ensures { result ≡ letters_by step }
{
    match step {
        Step::Act(_) => 0,
        Step::Take(_) => 1,
    }
}

fn count_lines(lines: &[Event], counts: &mut [u64])
    ensures { AddsLines lines.now counts.old counts.new }
{
    for place in 0..lines.len() {
        count_line(lines[place], counts);
    }
}

fn count_line(line: Event, counts: &mut [u64])
    ensures { AddsLines (line ∷ []) counts.old counts.new }
{
    let Some((set, kind)) = counted_as(line) else {
        return;
    };
    let place = 8 * (set as usize) + kind.place();
    if place < counts.len() {
        counts[place] = and_more(counts[place], 1);
    }
}

fn and_more(number: u64, more: u64) -> u64
    ensures { result ≡ and_more number more }
{
    number.saturating_add(more)
}
