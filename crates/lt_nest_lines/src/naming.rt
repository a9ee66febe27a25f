//! Which words are names: those of scripts. lt_script defines them, and keeps its own test to itself.

ghost use Rattle.std.specs.Prelude.{◌≡◌, slice_index};
ghost use Rattle.std.specs.List.{list_all};
ghost use Rattle.std.specs.Char.{is_ascii_alphabetic};
ghost use Rattle.lt_spec.specs.Script.{is_name_byte, is_reserved, is_name};

use lt_script::MAX_NAME;
use lt_text::is;

/// Whether the word may be the name of a set or a transaction.
///
/// A name has at most 32 bytes, which are letters, digits, `_`, `-` and `.`, and begins with a letter. The words
/// that begin lines of scripts are no names.
pub(crate) fn is_name(word: &[u8]) -> bool
    ensures { result ≡ is_name word.now }
{
    word.len() <= MAX_NAME && begins_with_letter(word) && has_name_bytes(word) && !is_reserved(word)
}

fn begins_with_letter(word: &[u8]) -> bool
    ensures { result ≡ is_ascii_alphabetic (slice_index word.now 0) }
{
    !word.is_empty() && word[0].is_ascii_alphabetic()
}

fn has_name_bytes(word: &[u8]) -> bool
    ensures { result ≡ list_all is_name_byte word.now }
{
    word.iter().all(|byte| is_name_byte(*byte))
}

fn is_name_byte(byte: u8) -> bool
    ensures { result ≡ is_name_byte byte }
{
    byte.is_ascii_alphanumeric() || byte == b'_' || byte == b'-' || byte == b'.'
}

fn is_reserved(word: &[u8]) -> bool
    ensures { result ≡ is_reserved word.now }
{
    is(word, "nodes")
        || is(word, "set")
        || is(word, "client")
        || is(word, "journal")
        || is(word, "version")
}
