ghost use Rattle.std.specs.Prelude.{◌≡◌, ◌≤◌, length, slice_index};
ghost use Rattle.std.specs.List.{list_all};
ghost use Rattle.std.specs.Char.{is_ascii_alphabetic};
ghost use Rattle.lt_spec.specs.Script.{is_name_byte, is_reserved, is_name};
ghost use Rattle.lt_spec.specs.declared.limits.TheConstants.{MAX_NAME};

use lt_spec::MAX_NAME;
use lt_text::is;
use std::marker::Model;

/// The name of a set or a client, which takes no memory elsewhere.
#[derive(Drop)]
pub struct Name {
    bytes: [u8; MAX_NAME],
    length: u8,
}

impl Model for Name {
    ghost use Rattle.std.specs.Prelude.{◌≤◌, ℕ, List, take};
    ghost use Rattle.lt_spec.specs.declared.limits.TheConstants.{MAX_NAME};

    ghost Value = { List ℕ };

    ghost view = { λ n. take n.length n.bytes };

    ghost invariant = { λ n. n.length ≤ MAX_NAME };
}

impl Name {
    pub fn of(bytes: &[u8]) -> Name
        requires { length bytes.now ≤ MAX_NAME }
        ensures { result ≡ bytes.now }
    {
        let mut kept = [0; MAX_NAME];
        kept[..bytes.len()].copy_from_slice(bytes);
        Name {
            bytes: kept,
            length: bytes.len() as u8,
        }
    }

    pub fn bytes(&self) -> &[u8]
        ensures { result.now ≡ self.now }
    {
        &self.bytes[..usize::from(self.length)]
    }

    /// The same once more.
    pub fn copy(&self) -> Name
        ensures { result ≡ self.now }
    {
        Name {
            bytes: self.bytes,
            length: self.length,
        }
    }
}

/// Whether the word may be the name of a set or a client.
///
/// A name has at most 32 bytes, which are letters, digits, `_`, `-` and `.`, and begins with a letter. The words
/// that begin other lines are no names.
pub fn is_name(word: &[u8]) -> bool
    ensures { result ≡ is_name word.now }
{
    word.len() <= MAX_NAME && begins_with_letter(word) && has_name_bytes(word) && !is_reserved(word)
}

fn begins_with_letter(word: &[u8]) -> bool
    ensures { result ≡ is_ascii_alphabetic (slice_index word.now 0) }
{
    !word.is_empty() && word[0].is_ascii_alphabetic()
}

fn has_name_bytes(word: &[u8]) -> bool
    ensures { result ≡ list_all is_name_byte word.now }
{
    word.iter().all(|byte| is_name_byte(*byte))
}

fn is_name_byte(byte: u8) -> bool
    ensures { result ≡ is_name_byte byte }
{
    byte.is_ascii_alphanumeric() || byte == b'_' || byte == b'-' || byte == b'.'
}

fn is_reserved(word: &[u8]) -> bool
    ensures { result ≡ is_reserved word.now }
{
    is(word, "nodes")
        || is(word, "set")
        || is(word, "client")
        || is(word, "journal")
        || is(word, "version")
}
