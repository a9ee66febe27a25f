// What the calls on journals do.
ghost use Rattle.std.specs.Prelude.{◌≡◌, ◌++◌, ◌-◌, min, length, take, drop};
ghost use Rattle.lt_live_c.specs.Journals.{CopiesFrom, TellsEnd, script_of_content, text_in};

use crate::code::{OK, WRONG_HANDLE};
use crate::content::Content;

/// The text of the script with its commands; empty where it is no journal.
pub fn script_in(content: &Content) -> &[u8]
    ensures { result.now ≡ script_of_content content.now }
{
    match content {
        Content::Journal(journal) => &journal.script,
        _ => &[],
    }
}

/// The text of the run; empty where it is no journal.
pub fn text_in(content: &Content) -> &[u8]
    ensures { result.now ≡ text_in content.now }
{
    match content {
        Content::Journal(journal) => &journal.text,
        _ => &[],
    }
}

/// Copies bytes of the text from this one on, and tells how many.
pub fn copy(text: &[u8], from: usize, out: &mut [u8]) -> usize
    ensures { CopiesFrom text.now from result out.old out.new }
{
    if from >= text.len() {
        return 0;
    }
    let count = out.len().min(text.len() - from);
    out[..count].copy_from_slice(&text[from..from + count]);
    count
}

/// How many lines say what is held at the end, and how many who waits.
pub fn tell_end(content: &Content, held: &mut usize, waiting: &mut usize) -> u32
    ensures { TellsEnd content.now result held.old held.new waiting.old waiting.new }
{
    match content {
        Content::Journal(journal) => {
            *held = journal.held;
            *waiting = journal.waiting;
            OK
        }
        _ => WRONG_HANDLE,
    }
}
