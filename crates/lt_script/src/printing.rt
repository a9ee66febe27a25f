ghost use Rattle.std.specs.Prelude.{◌≡◌, ◌<◌, ◌++◌, ◌∷◌, [], length, IfOk, OnOk};
ghost use Rattle.std.specs.List.{flat_map};
ghost use Rattle.lt_modes.specs.Modes.{word_of};
ghost use Rattle.lt_text.specs.Text.{each_after_space};
ghost use Rattle.lt_spec.specs.Script.{IsRequest, IsShort};
ghost use Rattle.lt_script.specs.Reading.{read_of};
ghost use Rattle.lt_script.specs.Printing.{print_of, ended_line, version_words, nodes_words, set_words, client_words, asked_words, command_words};

use crate::declarations::{ClientDecl, SetDecl};
use crate::index::Named;
use crate::script::Script;
use lt_modes::{Command, Mode};
use lt_text::push_number;
use std::alloc::{AllocError, Global};

/// Writes the script as `read` reads it: in version 2 or 3 the line that says it, and then the line `nodes`, the sets,
/// the clients and the commands. A script with more sets or more commands than a text may have is written too, and not
/// read back.
pub fn print(alloc: Global, script: &Script) -> Result<Vec<u8>, AllocError>
    ensures text { IfOk result (λ text. text.items ≡ print_of script.now) }
    ensures read_back { IsShort script.now → IfOk result (λ text. read_of text.items ≡ Ok script.now) }
{
    let mut out = Vec::new(alloc);
    push_version(&mut out, script.version())?;
    push_nodes(&mut out, script.nodes())?;
    push_sets(&mut out, script)?;
    push_clients(&mut out, script)?;
    push_commands(&mut out, script)?;
    Ok(out)
}

fn push_version(out: &mut Vec<u8>, version: u8) -> Result<(), AllocError>
    ensures { OnOk result (out.new.items ≡ out.old.items ++ flat_map ended_line (version_words version)) }
{
    match version {
        1 => Ok(()),
        2 => push_text(out, "version 2\n"),
        _ => push_text(out, "version 3\n"),
    }
}

fn push_nodes(out: &mut Vec<u8>, nodes: u8) -> Result<(), AllocError>
    ensures { OnOk result (out.new.items ≡ out.old.items ++ ended_line (nodes_words nodes)) }
{
    push_text(out, "nodes ")?;
    push_number(out, u64::from(nodes))?;
    push_text(out, "\n")
}

fn push_sets(out: &mut Vec<u8>, script: &Script) -> Result<(), AllocError>
    ensures { OnOk result (out.new.items
        ≡ out.old.items ++ flat_map (λ x. ended_line (set_words script.now.sets x)) script.now.sets) }
{
    for set in script.set_declarations() {
        push_set(out, script, set)?;
    }
    Ok(())
}

fn push_set(out: &mut Vec<u8>, script: &Script, set: &SetDecl) -> Result<(), AllocError>
    requires { set.now.family < length script.now.sets }
    ensures { OnOk result
        (out.new.items ≡ out.old.items ++ ended_line (set_words script.now.sets set.now)) }
{
    push_text(out, "set")?;
    push_word(out, set.name())?;
    let first = script.set_name(set.family());
    if first != set.name() {
        push_word(out, b"with")?;
        push_word(out, first)?;
    }
    push_text(out, "\n")
}

fn push_clients(out: &mut Vec<u8>, script: &Script) -> Result<(), AllocError>
    ensures { OnOk result
        (out.new.items ≡ out.old.items ++ flat_map (λ x. ended_line (client_words x)) script.now.clients) }
{
    for client in script.client_declarations() {
        push_client(out, client)?;
    }
    Ok(())
}

fn push_client(out: &mut Vec<u8>, client: &ClientDecl) -> Result<(), AllocError>
    ensures { OnOk result (out.new.items ≡ out.old.items ++ ended_line (client_words client.now)) }
{
    push_text(out, "client")?;
    push_word(out, client.name())?;
    push_text(out, " at ")?;
    push_number(out, u64::from(client.node()))?;
    push_text(out, "\n")
}

fn push_commands(out: &mut Vec<u8>, script: &Script) -> Result<(), AllocError>
    ensures { OnOk result (out.new.items
        ≡ out.old.items ++ flat_map (λ x. ended_line (command_words script.now x)) script.now.commands) }
{
    for request in script.requests() {
        push_command(out, script, *request)?;
    }
    Ok(())
}

fn push_command(
    out: &mut Vec<u8>,
    script: &Script,
    request: (u16, Command),
) -> Result<(), AllocError>
    requires { IsRequest script.now.sets script.now.clients request }
    ensures { OnOk result
        (out.new.items ≡ out.old.items ++ ended_line (command_words script.now request)) }
{
    out.extend_from_slice(script.client_name(request.0))?;
    push_asked(out, script, request)?;
    push_text(out, "\n")
}

// Writes what stands behind the client's name.
fn push_asked(out: &mut Vec<u8>, script: &Script, request: (u16, Command)) -> Result<(), AllocError>
    requires { IsRequest script.now.sets script.now.clients request }
    ensures { OnOk result
        (out.new.items ≡ out.old.items ++ each_after_space (asked_words script.now request.1)) }
{
    match request.1 {
        Command::Lock { set, mode } => push_set_and_mode(out, b"lock", script.set_name(set), mode),
        Command::Try { set, mode } => push_set_and_mode(out, b"try", script.set_name(set), mode),
        Command::Unlock { set, mode } => {
            push_set_and_mode(out, b"unlock", script.set_name(set), mode)
        }
        Command::Change {
            set,
            gives_up,
            mode,
        } => {
            push_set_and_mode(out, b"change", script.set_name(set), gives_up)?;
            push_word(out, mode.word().as_bytes())
        }
        Command::DropAll { client, set } => {
            push_client_and_set(
                out,
                b"drop",
                script.client_name(client),
                script.set_name(set),
            )
        }
        Command::Withdraw { client, set } => {
            push_client_and_set(
                out,
                b"withdraw",
                script.client_name(client),
                script.set_name(set),
            )
        }
    }
}

fn push_set_and_mode(
    out: &mut Vec<u8>,
    verb: &[u8],
    set: &[u8],
    mode: Mode,
) -> Result<(), AllocError>
    ensures { OnOk result (out.new.items
        ≡ out.old.items ++ each_after_space (verb.now ∷ set.now ∷ word_of mode ∷ [])) }
{
    push_word(out, verb)?;
    push_word(out, set)?;
    push_word(out, mode.word().as_bytes())
}

fn push_client_and_set(
    out: &mut Vec<u8>,
    verb: &[u8],
    client: &[u8],
    set: &[u8],
) -> Result<(), AllocError>
    ensures { OnOk result
        (out.new.items ≡ out.old.items ++ each_after_space (verb.now ∷ client.now ∷ set.now ∷ [])) }
{
    push_word(out, verb)?;
    push_word(out, client)?;
    push_word(out, set)
}

// Writes a space and the word.
fn push_word(out: &mut Vec<u8>, word: &[u8]) -> Result<(), AllocError>
    ensures { OnOk result (out.new.items ≡ out.old.items ++ 32 ∷ word.now) }
{
    push_text(out, " ")?;
    out.extend_from_slice(word)
}

fn push_text(out: &mut Vec<u8>, text: &str) -> Result<(), AllocError>
    ensures { OnOk result (out.new.items ≡ out.old.items ++ text.now) }
{
    out.extend_from_slice(text.as_bytes())
}
