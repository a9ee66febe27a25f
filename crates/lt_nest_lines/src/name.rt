ghost use Rattle.std.specs.Prelude.{◌≡◌, ◌<◌, length, IfOk, IfSome};
ghost use Rattle.std.specs.Str.{bytes_eq};
ghost use Rattle.lt_nest_lines.specs.Input.{place_of};
ghost use Rattle.lt_nest_lines.specs.Play.{name_at};

use std::alloc::{AllocError, Global};
use std::marker::Model;

/// The name of a set or a transaction.
#[derive(Drop)]
pub(crate) struct Name {
    bytes: Vec<u8>,
}

impl Model for Name {
    ghost use Rattle.std.specs.Prelude.{ℕ, List};

    ghost Value = { List ℕ };

    ghost view = { λ n. n.bytes.items };
}

impl Name {
    pub fn new(alloc: Global, bytes: &[u8]) -> Result<Name, AllocError>
        ensures { IfOk result (λ name. name ≡ bytes.now) }
    {
        let bytes = Vec::from_slice(alloc, bytes)?;
        Ok(Name { bytes })
    }

    pub fn as_bytes(&self) -> &[u8]
        ensures { result.now ≡ self.now }
    {
        &self.bytes
    }

    pub fn is(&self, word: &[u8]) -> bool
        ensures { result ≡ bytes_eq self.now word.now }
    {
        self.bytes.as_slice() == word
    }
}

/// The place of the word among the names.
pub(crate) fn place_of(names: &[Name], word: &[u8]) -> Option<usize>
    ensures place { result ≡ place_of names.now word.now }
    ensures within { IfSome result (λ k. k < length names.now) }
{
    names.iter().position(|name| name.is(word))
}

/// The name at this place; empty where there is none.
pub(crate) fn name_at(names: &[Name], k: usize) -> &[u8]
    ensures { result.now ≡ name_at names.now k }
{
    if k < names.len() {
        names[k].as_bytes()
    } else {
        &[]
    }
}
