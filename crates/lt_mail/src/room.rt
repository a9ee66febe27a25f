// Room for letters that wait.
ghost use Rattle.std.specs.Prelude.{◌≡◌, ◌+◌, ◌≤◌, ◌<◌, OnOk, OnErr};
ghost use Rattle.std.specs.VecDeque.{deque_len, deque_capacity};

use lt_desk::Post;
use std::alloc::AllocError;
use std::collections::VecDeque;

// How many places a new list has for so many letters: few sizes, so that the memory of one list serves another, and
// that one is seldom made anew. Where no ask waits, a move of a node sends up to 153 letters among 16 nodes, and up to
// 537 among 64; and one more for each ask that waits, of which there are at most 1,024.
fn places_for(letters: usize) -> usize
    ensures { letters ≤ result }
{
    match letters {
        0..=160 => 160,
        161..=544 => 544,
        545..=1568 => 1568,
        _ => letters,
    }
}

/// Makes room in the list for so many further letters.
pub(crate) fn make_room(waiting: &mut VecDeque<Post>, letters: usize) -> Result<(), AllocError>
    ensures items { waiting.new.items ≡ waiting.old.items }
    ensures len { deque_len waiting.new ≡ deque_len waiting.old }
    ensures room { OnOk result (deque_len waiting.new + letters ≤ deque_capacity waiting.new) }
    ensures kept { deque_capacity waiting.old ≤ deque_capacity waiting.new }
    ensures full { OnErr result (deque_capacity waiting.old < deque_len waiting.old + letters) }
{
    if letters <= waiting.capacity() - waiting.len() {
        return Ok(());
    }
    if waiting.is_empty() {
        let alloc = *waiting.allocator();
        *waiting = VecDeque::with_capacity(alloc, places_for(letters))?;
    }
    waiting.reserve(letters)
}
