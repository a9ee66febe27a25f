// The calls on journals.
ghost use Rattle.std.specs.Prelude.{◌≡◌};
ghost use Rattle.lt_live_c.specs.Journals.{CopiesFrom, text_of_content, script_at, HandleTellsEnd};

use crate::boxes::take;
use crate::code::WRONG_HANDLE;
use crate::handle::Handle;
use crate::texts::{copy, script_in, tell_end, text_in};
use std::alloc::Global;

/// Copies bytes of a journal's text, from this one on, and tells how many.
#[unsafe(no_mangle)]
pub extern "C" fn lockrun_copy(
    alloc: Global,
    journal: &mut Handle,
    from: usize,
    out: &mut [u8],
) -> usize
    ensures keeps { journal.new.value ≡ journal.old.value }
    ensures copies { CopiesFrom (text_of_content journal.old.value) from result out.old out.new }
{
    let Some(inside) = take(alloc, journal) else {
        return copy(&[], from, out);
    };
    let count = copy(text_in(&inside), from, out);
    *journal = Handle::of(inside);
    count
}

/// Copies bytes of the text of the journal's script, from this one on, and tells how many.
#[unsafe(no_mangle)]
pub extern "C" fn lockrun_script(
    alloc: Global,
    journal: &mut Handle,
    from: usize,
    out: &mut [u8],
) -> usize
    ensures keeps { journal.new.value ≡ journal.old.value }
    ensures copies { CopiesFrom (script_at journal.old.value) from result out.old out.new }
{
    let Some(inside) = take(alloc, journal) else {
        return copy(&[], from, out);
    };
    let count = copy(script_in(&inside), from, out);
    *journal = Handle::of(inside);
    count
}

/// How many lines of the journal say what is held at the end, and how many who waits.
#[unsafe(no_mangle)]
pub extern "C" fn lockrun_end(
    alloc: Global,
    journal: &mut Handle,
    held: &mut usize,
    waiting: &mut usize,
) -> u32
    ensures keeps { journal.new.value ≡ journal.old.value }
    ensures tells { HandleTellsEnd journal.old.value result held.old held.new waiting.old waiting.new }
{
    let Some(inside) = take(alloc, journal) else {
        return WRONG_HANDLE;
    };
    let code = tell_end(&inside, held, waiting);
    *journal = Handle::of(inside);
    code
}
