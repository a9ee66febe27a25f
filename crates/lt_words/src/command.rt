ghost use Rattle.std.specs.Prelude.{◌≡◌, ◌||◌, map, is_some, IfOk, IsErr, IsSome};
ghost use Rattle.std.specs.List.{list_all};
ghost use Rattle.std.specs.Str.{bytes_eq};
ghost use Rattle.std.specs.String.{string_bytes};
ghost use Rattle.clap.specs.Words.{rows_of, found_of, subcommand_rows_of};
ghost use Rattle.lt_words.specs.Grammar.{command_of, one_word, two_words, sim_of, soak_of, five_words, seven_words, version_in, text_at, make_in, command_in, command_named, is_form, has_verb, is_plain};

use crate::grammar::parse;
use crate::numbers::{make_of, seed_of, version_of};
use clap::ArgMatches;
use std::alloc::{AllocError, Global};

/// What the words of the program ask for.
#[derive(Clone, Copy, Debug, PartialEq, Eq)]
pub enum Command {
    /// Runs a script on threads.
    Run,
    /// Makes the moves of a script in their fixed order.
    SimFirst,
    /// Makes the moves of a script in an order drawn from the seed.
    Sim {
        seed: u64,
    },
    /// Tells whether a journal is that of a run of its script.
    Check,
    /// Prints a script of this version drawn from the seed.
    Make {
        version: u8,
        nodes: u8,
        clients: u16,
        commands: u32,
        seed: u64,
    },
    /// Runs a script of the greatest size, drawn from the seed, on threads.
    Soak {
        seed: u64,
    },
    /// Tells whether a script is ordered.
    Order,
}

impl Command {
    /// The command that the words are, which don't have the program's name. It is read with `clap`; only if memory runs
    /// out there, the words themselves decide whether they are a command.
    pub fn from_words(alloc: Global, words: &[String]) -> Result<Option<Command>, AllocError>
        ensures command { IfOk result (λ command. command ≡ command_of (map string_bytes words.now)) }
        ensures refused { IsErr result → IsSome (command_of (map string_bytes words.now)) }
    {
        if !is_form(words) {
            return Ok(None);
        }
        match parse(alloc, words) {
            Ok(matches) => Ok(Command::found(&matches)),
            // The words have a form, so that there was no memory.
            Err(_) if is_command(words) => Err(AllocError),
            Err(_) => Ok(None),
        }
    }

    // The command that a parse found, if its numbers are numbers.
    fn found(matches: &ArgMatches<'_>) -> Option<Command>
        ensures { result ≡ command_in (subcommand_rows_of matches.now) }
    {
        let (name, found) = matches.subcommand()?;
        named(name, found)
    }
}

// The command with this first word, of which a parse found these texts.
fn named(name: &str, found: &ArgMatches<'_>) -> Option<Command>
    ensures { result ≡ command_named name.now (rows_of (found_of found.now)) }
{
    match name {
        "sim" => sim(text_at(found, "how")),
        "soak" => soak(text_at(found, "seed")),
        "make" => make_in(found),
        _ => one_word(name),
    }
}

// The command `make` with the texts that a parse found.
fn make_in(found: &ArgMatches<'_>) -> Option<Command>
    ensures { result ≡ make_in (rows_of (found_of found.now)) }
{
    make_of(
        version_in(text_at(found, "key"), text_at(found, "version")),
        text_at(found, "nodes"),
        text_at(found, "clients"),
        text_at(found, "commands"),
        text_at(found, "seed"),
    )
}

// The version that the texts behind the seed name: 1 if there are none.
fn version_in(key: &str, version: &str) -> Option<u32>
    ensures { result ≡ version_in key.now version.now }
{
    if key.is_empty() {
        return Some(1);
    }
    version_of(key, version)
}

// Whether the words are a command, seen without memory.
fn is_command(words: &[String]) -> bool
    ensures { result ≡ is_some (command_of (map string_bytes words.now)) }
{
    match words {
        [word] => one_word(word).is_some(),
        [verb, word] => are_command(verb, word),
        [verb, nodes, clients, commands, seed] => is_make(verb, nodes, clients, commands, seed),
        [verb, nodes, clients, commands, seed, key, version] => {
            is_make_of(verb, nodes, clients, commands, seed, key, version)
        }
        _ => false,
    }
}

fn are_command(verb: &str, word: &str) -> bool
    ensures { result ≡ is_some (two_words verb.now word.now) }
{
    match verb {
        "sim" => sim(word).is_some(),
        "soak" => soak(word).is_some(),
        _ => false,
    }
}

fn is_make(verb: &str, nodes: &str, clients: &str, commands: &str, seed: &str) -> bool
    ensures { result ≡ is_some (five_words verb.now nodes.now clients.now commands.now seed.now) }
{
    verb == "make" && make_of(Some(1), nodes, clients, commands, seed).is_some()
}

fn is_make_of(
    verb: &str,
    nodes: &str,
    clients: &str,
    commands: &str,
    seed: &str,
    key: &str,
    version: &str,
) -> bool
    ensures { result ≡ is_some (seven_words verb.now nodes.now clients.now commands.now seed.now key.now version.now) }
{
    verb == "make" && make_of(version_of(key, version), nodes, clients, commands, seed).is_some()
}

// Whether the words begin as a command does, are as many as it has, and none of them begins with a hyphen.
fn is_form(words: &[String]) -> bool
    ensures { result ≡ is_form (map string_bytes words.now) }
{
    has_verb(words) && are_plain(words)
}

fn has_verb(words: &[String]) -> bool
    ensures { result ≡ has_verb (map string_bytes words.now) }
{
    match words {
        [verb] => one_word(verb).is_some(),
        [verb, _] => is_one_of(verb, "sim", "soak"),
        [verb, _, _, _, _] | [verb, _, _, _, _, _, _] => verb.as_str() == "make",
        _ => false,
    }
}

fn is_one_of(word: &str, one: &str, other: &str) -> bool
    ensures { result ≡ (bytes_eq word.now one.now || bytes_eq word.now other.now) }
{
    word == one || word == other
}

fn are_plain(words: &[String]) -> bool
    ensures { result ≡ list_all (λ word. is_plain (string_bytes word)) words.now }
{
    words.iter().all(|word| is_plain(word))
}

fn is_plain(word: &str) -> bool
    ensures { result ≡ is_plain word.now }
{
    let bytes = word.as_bytes();
    !bytes.is_empty() && bytes[0] != b'-'
}

// The text that the parse found for this id.
fn text_at<'a>(matches: &ArgMatches<'a>, id: &str) -> &'a str
    ensures { result.now ≡ text_at id.now (rows_of (found_of matches.now)) }
{
    match matches.get_str(id) {
        Some(text) => text,
        None => "",
    }
}

fn one_word(word: &str) -> Option<Command>
    ensures { result ≡ one_word word.now }
{
    match word {
        "run" => Some(Command::Run),
        "check" => Some(Command::Check),
        "order" => Some(Command::Order),
        _ => None,
    }
}

fn sim(how: &str) -> Option<Command>
    ensures { result ≡ sim_of how.now }
{
    if how == "first" {
        return Some(Command::SimFirst);
    }
    let seed = seed_of(how)?;
    Some(Command::Sim { seed })
}

fn soak(seed: &str) -> Option<Command>
    ensures { result ≡ soak_of seed.now }
{
    let seed = seed_of(seed)?;
    Some(Command::Soak { seed })
}
