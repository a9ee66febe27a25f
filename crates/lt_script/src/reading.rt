ghost use Rattle.std.specs.Prelude.{◌≡◌, ◌⊎◌, ◌<◌, ◌≤◌, ◌+◌, ◌-◌, ◌^◌, ◌∷◌, None, Some, length, true, IfOk, IsTrue};
ghost use Rattle.lt_text.specs.Text.{lines, words};
ghost use Rattle.lt_spec.specs.Script.{IsShort};
ghost use Rattle.lt_script.specs.Forms.{form_seen};
ghost use Rattle.lt_script.specs.Faults.{declared, form_fault, after_form};
ghost use Rattle.lt_script.specs.Reading.{ReadsLine, Reads, is_skipped, version_said, line_step, script_body, read_of};
ghost use Rattle.lt_script.specs.Steps.{begins_comment, words_step, is_plain_line};

use crate::cutting::first_line;
use crate::fault::{Fault, ReadError, ScriptFault};
use crate::form::{Form, form_in, form_of};
use crate::later_lines::add_line;
use crate::line::fault_before_nodes;
use crate::plain::{is_plain_line, is_plain_text};
use crate::script::Script;
use lt_spec::MAX_LINE;
use lt_text::{next_word, number};
use std::alloc::{AllocError, Global};

/// Reads a script.
///
/// Spaces and tabs part the words of a line. Lines without words are skipped, and so are comments, whose first
/// word begins with `#`. The first line with a fault decides, and on one line the fault with the lowest number.
pub fn read(alloc: Global, bytes: &[u8]) -> Result<Script, ReadError>
    requires { length bytes.now < 2 ^ 32 - 1 }
    ensures read { Reads result (read_of bytes.now) }
    ensures short { IfOk result IsShort }
{
    let body = body_of(bytes);
    let mut script: Option<Script> = None;
    let mut rest = body.rest;
    let mut number = body.number;
    let is_plain = is_plain_text(rest);
    while let Some((line, after)) = first_line(rest) {
        let Ok(fault) = read_line(alloc, body.version, &mut script, line, is_plain) else {
            return Err(ReadError::Memory);
        };
        if let Some(fault) = fault {
            return Err(ReadError::Fault(ScriptFault {
                line: number,
                fault,
            }));
        }
        rest = after;
        number += 1;
    }
    match script {
        Some(script) => Ok(script),
        None => Err(ReadError::Fault(ScriptFault {
            line: number,
            fault: Fault::Nodes,
        })),
    }
}

// What a script is read from: its version, and the lines behind the line that says it, where there is one, with the
// number of the first of them.
#[derive(Clone, Copy)]
struct Body<'a> {
    version: u8,
    number: u32,
    rest: &'a [u8],
}

// The version of the script, and the lines that say more.
fn body_of<'a>(bytes: &'a [u8]) -> Body<'a>
    requires { length bytes.now < 2 ^ 32 - 1 }
    ensures body { script_body (lines bytes.now) 1
        ≡ record { version = result.version; first = result.number; lines = lines result.rest.now } }
    ensures version { (result.version ≡ 1) ⊎ ((result.version ≡ 2) ⊎ (result.version ≡ 3)) }
    ensures count { result.number + length result.rest.now ≤ length bytes.now + 1 }
{
    let mut rest = bytes;
    let mut number: u32 = 1;
    while let Some((line, after)) = first_line(rest) {
        if !is_skipped(line) {
            let version = version_said(line);
            if version == 1 {
                return Body {
                    version,
                    number,
                    rest,
                };
            }
            return Body {
                version,
                number: number + 1,
                rest: after,
            };
        }
        rest = after;
        number += 1;
    }
    Body {
        version: 1,
        number,
        rest,
    }
}

// 2 if the line is `version 2`, 3 if it is `version 3`, each if it is not too long; else 1.
fn version_said(line: &[u8]) -> u8
    ensures said { result ≡ version_said line.now }
    ensures known { (result ≡ 1) ⊎ ((result ≡ 2) ⊎ (result ≡ 3)) }
{
    if line.len() > MAX_LINE {
        return 1;
    }
    let Some((word, rest)) = next_word(line) else {
        return 1;
    };
    match form_of(word, rest) {
        Some(Form::Version2) => 2,
        Some(Form::Version3) => 3,
        _ => 1,
    }
}

// Adds what the line says, or tells its first fault; `is_plain` is whether its bytes are known to be plain.
fn read_line(
    alloc: Global,
    version: u8,
    script: &mut Option<Script>,
    line: &[u8],
    is_plain: bool,
) -> Result<Option<Fault>, AllocError>
    requires version { (version ≡ 1) ⊎ ((version ≡ 2) ⊎ (version ≡ 3)) }
    requires plain { IsTrue is_plain → is_plain_line line.now ≡ true }
    ensures { IfOk result (λ fault. ReadsLine fault script.new (line_step version script.old line.now)) }
{
    let Some((word, rest)) = next_word(line) else {
        return Ok(None);
    };
    if begins_comment(word) {
        return Ok(None);
    }
    if !is_plain && !is_plain_line(line) {
        return Ok(Some(Fault::Bytes));
    }
    if line.len() > MAX_LINE {
        return Ok(Some(Fault::Length));
    }
    match script {
        Some(script) => add_line(script, word, rest),
        None => begin(alloc, version, script, word, rest),
    }
}

fn is_skipped(line: &[u8]) -> bool
    ensures { result ≡ is_skipped line.now }
{
    match next_word(line) {
        Some((word, _)) => begins_comment(word),
        None => true,
    }
}

fn begins_comment(word: &[u8]) -> bool
    ensures { result ≡ begins_comment word.now }
{
    !word.is_empty() && word[0] == b'#'
}

// Makes the script that the line `nodes` begins, or tells the first fault of a line with these words.
fn begin(
    alloc: Global,
    version: u8,
    script: &mut Option<Script>,
    word: &[u8],
    rest: &[u8],
) -> Result<Option<Fault>, AllocError>
    requires version { (version ≡ 1) ⊎ ((version ≡ 2) ⊎ (version ≡ 3)) }
    requires none { script.old ≡ None }
    ensures { IfOk result
        (λ fault. ReadsLine fault script.new (words_step version script.old (word.now ∷ words rest.now))) }
{
    let Some(form) = form_in(version, word, rest) else {
        return Ok(Some(Fault::Form));
    };
    if let Some(fault) = fault_before_nodes(version, form) {
        return Ok(Some(fault));
    }
    *script = Some(start(alloc, version, form)?);
    Ok(None)
}

// The script that the line `nodes` begins.
fn start(alloc: Global, version: u8, form: Form<'_>) -> Result<Script, AllocError>
    requires version { (version ≡ 1) ⊎ ((version ≡ 2) ⊎ (version ≡ 3)) }
    requires clean { form_fault version None (form_seen form) ≡ None }
    ensures { IfOk result (λ script. script ≡ after_form (declared version None) (form_seen form.entry)) }
{
    let Form::Nodes { nodes } = form else {
        unreachable!();
    };
    let nodes = number(nodes).unwrap_or(0);
    Script::of_version(alloc, version, nodes as u8)
}
