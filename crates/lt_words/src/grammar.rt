//! The commands as `clap` knows them.

ghost use Rattle.std.specs.Prelude.{◌≡◌, true, false, map, IfOk, IfErr};
ghost use Rattle.std.specs.String.{string_bytes};
ghost use Rattle.clap.specs.Words.{rule_of, kind_of, subcommand_of, subcommand_rows_of};
ghost use Rattle.clap.specs.declared.error.kind.ErrorKind.TheVariants.{OutOfMemory};
ghost use Rattle.lt_words.specs.Grammar.{needed, optional, plain_app, one_app, make_app, top_app, lockrun, is_form};
ghost use Rattle.lt_words.specs.Apps.{IsApp, IsLockrun, AddsRule, AddsApp};

use clap::{Arg, ArgAction, ArgMatches, Command, Error};
use std::alloc::{AllocError, Global};

/// The subcommand that the words name, with their texts; an error is want of memory.
pub fn parse<'a>(alloc: Global, words: &'a [String]) -> Result<ArgMatches<'a>, Error>
    requires form { is_form (map string_bytes words.now) ≡ true }
    ensures ok { IfOk result
        (λ matches. subcommand_rows_of matches ≡ subcommand_of lockrun (map string_bytes words.now)) }
    ensures err { IfErr result (λ error. kind_of error ≡ OutOfMemory) }
{
    let command = commands(alloc)?;
    command.try_get_matches_from(words)
}

// The program with all its subcommands.
fn commands<'a>(alloc: Global) -> Result<Command<'a>, AllocError>
    ensures { IfOk result IsLockrun }
{
    let with_run = add_plain(alloc, top(alloc), "run")?;
    let with_check = add_plain(alloc, with_run, "check")?;
    let with_sim = add_one(alloc, with_check, "sim", "how")?;
    let with_soak = add_one(alloc, with_sim, "soak", "seed")?;
    let with_make = add_make(alloc, with_soak)?;
    add_plain(alloc, with_make, "order")
}

fn top<'a>(alloc: Global) -> Command<'a>
    ensures { IsApp result top_app }
{
    Command::new(alloc, "lockrun")
        .disable_help_flag(true)
        .disable_help_subcommand(true)
        .no_binary_name(true)
        .subcommand_required(true)
}

// A subcommand without arguments.
fn plain<'a>(alloc: Global, name: &'a str) -> Command<'a>
    ensures { IsApp result (plain_app name.entry.now) }
{
    Command::new(alloc, name).disable_help_flag(true)
}

// An argument without which the words are no command.
fn needed<'a>(alloc: Global, id: &'a str) -> Arg<'a>
    ensures rule { rule_of result ≡ needed id.entry.now }
    ensures local { result.global ≡ false }
{
    Arg::new(alloc, id).required(true).action(ArgAction::Set)
}

// An argument that may be missing.
fn optional<'a>(alloc: Global, id: &'a str) -> Arg<'a>
    ensures rule { rule_of result ≡ optional id.entry.now }
    ensures local { result.global ≡ false }
{
    Arg::new(alloc, id).action(ArgAction::Set)
}

// Adds a subcommand without arguments.
fn add_plain<'a>(
    alloc: Global,
    program: Command<'a>,
    name: &'a str,
) -> Result<Command<'a>, AllocError>
    ensures { IfOk result (λ command. AddsApp program.entry command (plain_app name.entry.now)) }
{
    program.subcommand(plain(alloc, name))
}

// Adds a subcommand with one argument.
fn add_one<'a>(
    alloc: Global,
    program: Command<'a>,
    name: &'a str,
    id: &'a str,
) -> Result<Command<'a>, AllocError>
    ensures { IfOk result (λ command. AddsApp program.entry command (one_app name.entry.now id.entry.now)) }
{
    let one = one(alloc, name, id)?;
    program.subcommand(one)
}

// Adds the subcommand `make`.
fn add_make<'a>(alloc: Global, program: Command<'a>) -> Result<Command<'a>, AllocError>
    ensures { IfOk result (λ command. AddsApp program.entry command make_app) }
{
    let make = make(alloc)?;
    program.subcommand(make)
}

// A subcommand with one argument.
fn one<'a>(alloc: Global, name: &'a str, id: &'a str) -> Result<Command<'a>, AllocError>
    ensures { IfOk result (λ command. IsApp command (one_app name.entry.now id.entry.now)) }
{
    plain(alloc, name).arg(needed(alloc, id))
}

// Adds an argument that may be missing to a subcommand.
fn add_optional<'a>(
    alloc: Global,
    command: Command<'a>,
    id: &'a str,
) -> Result<Command<'a>, AllocError>
    ensures { IfOk result (λ new. AddsRule command.entry new (optional id.entry.now)) }
{
    command.arg(optional(alloc, id))
}

// Adds an argument to a subcommand.
fn add_argument<'a>(
    alloc: Global,
    command: Command<'a>,
    id: &'a str,
) -> Result<Command<'a>, AllocError>
    ensures { IfOk result (λ new. AddsRule command.entry new (needed id.entry.now)) }
{
    command.arg(needed(alloc, id))
}

fn make<'a>(alloc: Global) -> Result<Command<'a>, AllocError>
    ensures { IfOk result (λ command. IsApp command make_app) }
{
    let with_nodes = one(alloc, "make", "nodes")?;
    let with_clients = add_argument(alloc, with_nodes, "clients")?;
    let with_commands = add_argument(alloc, with_clients, "commands")?;
    let with_seed = add_argument(alloc, with_commands, "seed")?;
    let with_key = add_optional(alloc, with_seed, "key")?;
    add_optional(alloc, with_key, "version")
}
