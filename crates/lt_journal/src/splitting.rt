ghost use Rattle.std.specs.Prelude.{◌≡◌, ◌<◌, ◌^◌, length, IfSome};
ghost use Rattle.lt_text.specs.Text.{lines, first_and, LeavesLess};
ghost use Rattle.lt_journal.specs.Split.{ArePassed, is_journal_line, after_first_line, input_parts};

use lt_script::line_end;
use lt_text::{is, next_word, trim_return};

/// Where an input is cut into a script and a journal.
///
/// The script is the first `script` bytes, and the journal is the bytes from place `journal` on. There are
/// `lines` lines before the journal.
#[derive(Clone, Copy, Debug, PartialEq, Eq)]
pub struct Parts {
    pub script: u32,
    pub journal: u32,
    pub lines: u32,
}

/// Cuts an input at the first line whose only word is `journal`. That line is in neither part, and counts
/// among the lines before the journal. Without such a line all is script.
pub fn split(bytes: &[u8]) -> Parts
    requires { length bytes.now < 2 ^ 32 }
    ensures { result ≡ input_parts bytes.now }
{
    split_from(bytes, 0, 0)
}

/// The same, where so many lines stand before place `from`, and none of them is `journal`.
pub fn split_from(bytes: &[u8], from: usize, before: u32) -> Parts
    requires few { length bytes.now < 2 ^ 32 }
    requires passed { ArePassed bytes.now from before }
    ensures { result ≡ input_parts bytes.now }
{
    let (_, mut rest) = bytes.split_at(from);
    let mut lines = before;
    while let Some((line, after)) = first_line(rest) {
        if is_journal_line(line) {
            return Parts {
                script: (bytes.len() - rest.len()) as u32,
                journal: (bytes.len() - after.len()) as u32,
                lines: lines + 1,
            };
        }
        lines += 1;
        rest = after;
    }
    let all = bytes.len() as u32;
    Parts {
        script: all,
        journal: all,
        lines,
    }
}

/// Whether `journal` is the only word of the line. Most lines are told apart by their first byte.
#[inline(always)]
pub fn is_journal_line(line: &[u8]) -> bool
    ensures { result ≡ is_journal_line line.now }
{
    if line.is_empty() {
        return false;
    }
    let first = line[0];
    if first != b'j' && first != b' ' && first != b'\t' {
        return false;
    }
    says_journal(line)
}

// The same by its words.
fn says_journal(line: &[u8]) -> bool
    ensures { result ≡ is_journal_line line.now }
{
    let Some((word, rest)) = next_word(line) else {
        return false;
    };
    is(word, "journal") && next_word(rest).is_none()
}

// The first line without its line end, and what stands after that; none of no bytes.
fn first_line(bytes: &[u8]) -> Option<(&[u8], &[u8])>
    ensures lines { lines bytes.now ≡ first_and lines result }
    ensures shorter { LeavesLess bytes.now result }
    ensures after { IfSome result (λ found. found.1.now ≡ after_first_line bytes.now) }
{
    if bytes.is_empty() {
        return None;
    }
    match line_end(bytes) {
        Some(end) => {
            let (line, _) = bytes.split_at(end);
            let (_, after) = bytes.split_at(end + 1);
            Some((trim_return(line), after))
        }
        None => Some((trim_return(bytes), &[])),
    }
}
