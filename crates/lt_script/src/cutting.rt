// How a text is cut into lines.
ghost use Rattle.std.specs.Prelude.{◌≡◌, position};
ghost use Rattle.lt_text.specs.Text.{lines, is_line_end, first_and, LeavesLess};

use lt_text::trim_return;
use memchr::memchr;

/// The first line without its line end, and what stands after that; none of no bytes.
#[inline(always)]
pub fn first_line(bytes: &[u8]) -> Option<(&[u8], &[u8])>
    ensures lines { lines bytes.now ≡ first_and lines result }
    ensures shorter { LeavesLess bytes.now result }
{
    if bytes.is_empty() {
        return None;
    }
    match line_end(bytes) {
        Some(end) => {
            let (line, _) = bytes.split_at(end);
            let (_, rest) = bytes.split_at(end + 1);
            Some((trim_return(line), rest))
        }
        None => Some((trim_return(bytes), &[])),
    }
}

/// The place of the first line feed. An empty line is known by its first byte.
#[inline(always)]
pub fn line_end(bytes: &[u8]) -> Option<usize>
    ensures { result ≡ position is_line_end bytes.now }
{
    if !bytes.is_empty() && bytes[0] == b'\n' {
        return Some(0);
    }
    memchr(b'\n', bytes)
}
