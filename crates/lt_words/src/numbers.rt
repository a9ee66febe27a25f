ghost use Rattle.std.specs.Prelude.{◌≡◌, Some};
ghost use Rattle.lt_text.specs.Number.{is_numeral, number};
ghost use Rattle.lt_words.specs.Grammar.{seed_of, make_of, version_of};

use crate::command::Command;
use lt_gen::can_make;
use lt_text::{are_digits, number};

/// The command `make`, if its version was one and these words are its numbers.
pub fn make_of(
    version: Option<u32>,
    nodes: &str,
    clients: &str,
    commands: &str,
    seed: &str,
) -> Option<Command>
    ensures { result ≡ make_of version (number nodes.now) (number clients.now) (number commands.now) (seed_of seed.now) }
{
    let version = version?;
    let nodes = number(nodes.as_bytes())?;
    let clients = number(clients.as_bytes())?;
    let commands = number(commands.as_bytes())?;
    make(version, nodes, clients, commands, seed_of(seed)?)
}

fn make(version: u32, nodes: u32, clients: u32, commands: u32, seed: u64) -> Option<Command>
    ensures { result ≡ make_of (Some version) (Some nodes) (Some clients) (Some commands) (Some seed) }
{
    if !can_make(version, nodes, clients, commands) {
        return None;
    }
    Some(Command::Make {
        version: version as u8,
        nodes: nodes as u8,
        clients: clients as u16,
        commands,
        seed,
    })
}

/// The version that `version` and a number name.
pub fn version_of(word: &str, version: &str) -> Option<u32>
    ensures { result ≡ version_of word.now version.now }
{
    if word != "version" {
        return None;
    }
    number(version.as_bytes())
}

/// The number below 2^64 that 1 to 20 decimal digits write.
pub fn seed_of(word: &str) -> Option<u64>
    ensures { result ≡ seed_of word.now }
{
    if !is_numeral(word, 20) {
        return None;
    }
    word.parse::<u64>().ok()
}

// Whether the word is from one to so many decimal digits.
fn is_numeral(word: &str, most: usize) -> bool
    ensures { result ≡ is_numeral word.now most }
{
    !word.is_empty() && word.len() <= most && are_digits(word.as_bytes())
}
