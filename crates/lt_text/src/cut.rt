ghost use Rattle.std.specs.Prelude.{◌≡◌, ◌<◌, length, position, IfSome};
ghost use Rattle.std.specs.Str.{bytes_eq};
ghost use Rattle.lt_text.specs.Text.{lines, words, fields, is_line_end, is_space, is_blank, is_word_byte, without_return, first_and, first_and_fields, LeavesLess};

/// Whether the bytes are those of the text.
pub fn is(word: &[u8], text: &str) -> bool
    ensures { result ≡ bytes_eq word.now text.now }
{
    word == text.as_bytes()
}

/// The first line without its line end, and what stands after that; none of no bytes.
///
/// A line ends with a line feed. A carriage return directly before it, or as the last byte of all, belongs to
/// the line end. No line follows a line feed that is the last byte.
pub fn next_line(bytes: &[u8]) -> Option<(&[u8], &[u8])>
    ensures lines { lines bytes.now ≡ first_and lines result }
    ensures shorter { LeavesLess bytes.now result }
{
    if bytes.is_empty() {
        return None;
    }
    match line_end(bytes) {
        Some(end) => {
            let (line, _) = bytes.split_at(end);
            let (_, rest) = bytes.split_at(end + 1);
            Some((trim_return(line), rest))
        }
        None => Some((trim_return(bytes), &[])),
    }
}

/// The first word, and what stands after it; none if there are only blanks.
///
/// Spaces and tabs part the words.
pub fn next_word(line: &[u8]) -> Option<(&[u8], &[u8])>
    ensures words { words line.now ≡ first_and words result }
    ensures shorter { LeavesLess line.now result }
{
    let Some(start) = word_start(line) else {
        return None;
    };
    let (_, from_word) = line.split_at(start);
    match word_end(from_word) {
        Some(end) => {
            let (word, _) = from_word.split_at(end);
            let (_, rest) = from_word.split_at(end + 1);
            Some((word, rest))
        }
        None => Some((from_word, &[])),
    }
}

/// What stands before the first space, and what stands after it.
pub fn next_field(line: &[u8]) -> (&[u8], Option<&[u8]>)
    ensures { fields line.now ≡ first_and_fields result.0.now result.1 }
{
    match first_space(line) {
        Some(end) => {
            let (field, _) = line.split_at(end);
            let (_, rest) = line.split_at(end + 1);
            (field, Some(rest))
        }
        None => (line, None),
    }
}

/// The line without a carriage return at its end.
pub fn trim_return(line: &[u8]) -> &[u8]
    ensures { result.now ≡ without_return line.now }
{
    if !line.is_empty() && line[line.len() - 1] == b'\r' {
        let (front, _) = line.split_at(line.len() - 1);
        front
    } else {
        line
    }
}

// The place of the first line feed.
fn line_end(bytes: &[u8]) -> Option<usize>
    ensures { result ≡ position is_line_end bytes.now }
{
    bytes.iter().position(|byte| *byte == b'\n')
}

// The place of the first byte that isn't blank.
fn word_start(line: &[u8]) -> Option<usize>
    ensures { result ≡ position is_word_byte line.now }
{
    line.iter()
        .position(|byte| !(*byte == b' ' || *byte == b'\t'))
}

// The place of the first blank.
fn word_end(line: &[u8]) -> Option<usize>
    ensures { result ≡ position is_blank line.now }
{
    line.iter().position(|byte| *byte == b' ' || *byte == b'\t')
}

// The place of the first space.
fn first_space(line: &[u8]) -> Option<usize>
    ensures { result ≡ position is_space line.now }
{
    line.iter().position(|byte| *byte == b' ')
}
