// Lines after the line `nodes`.
ghost use Rattle.std.specs.Prelude.{◌≡◌, ◌∷◌, None, Some, true, IfOk, OnOk};
ghost use Rattle.lt_text.specs.Text.{words};
ghost use Rattle.lt_script.specs.Forms.{form_seen, asked_seen, is_form_in, is_asked_in, SetForm, SetWithForm, ClientForm, CommandForm};
ghost use Rattle.lt_script.specs.Faults.{form_fault, after_form};
ghost use Rattle.lt_script.specs.OneMode.{one_mode_seen};
ghost use Rattle.lt_script.specs.Steps.{ReadsForm, ReadsWords};

use crate::fault::Fault;
use crate::form::{CommandWords, Form, begins_declaration, form_in};
use crate::line::{client_fault, later_nodes_fault, request_of, set_fault, set_with_fault};
use crate::one_mode::{OneMode, one_mode, request_of_one_mode};
use crate::script::Script;
use lt_text::number;
use std::alloc::AllocError;

/// Adds what a line with these words says, or tells its first fault.
#[inline(always)]
pub fn add_line(script: &mut Script, word: &[u8], rest: &[u8]) -> Result<Option<Fault>, AllocError>
    ensures { IfOk result (λ fault. ReadsWords fault script.old script.new (word.now ∷ words rest.now)) }
{
    if begins_declaration(word) {
        return add_other_line(script, word, rest);
    }
    match one_mode(rest) {
        Some(asked) => add_one_mode(script, word, asked),
        None => add_other_line(script, word, rest),
    }
}

// The same of a line of any form. It is no part of `add_line`, so that most lines do without its locals.
#[inline(never)]
fn add_other_line(
    script: &mut Script,
    word: &[u8],
    rest: &[u8],
) -> Result<Option<Fault>, AllocError>
    ensures { IfOk result (λ fault. ReadsWords fault script.old script.new (word.now ∷ words rest.now)) }
{
    match form_in(script.version(), word, rest) {
        Some(form) => add_form(script, form),
        None => Ok(Some(Fault::Form)),
    }
}

// Adds what a line of this form says, or tells its first fault.
fn add_form(script: &mut Script, form: Form<'_>) -> Result<Option<Fault>, AllocError>
    requires { is_form_in script.old.version (form_seen form) ≡ true }
    ensures { IfOk result (λ fault. ReadsForm fault script.old script.new (form_seen form.entry)) }
{
    match form {
        Form::Version2 | Form::Version3 => Ok(Some(Fault::Nodes)),
        Form::Nodes { nodes } => Ok(Some(later_nodes_fault(script, nodes))),
        Form::Set { name } => add_set_line(script, name),
        Form::SetWith { name, relative } => add_relative_line(script, name, relative),
        Form::Client { name, node } => add_client_line(script, name, node),
        Form::Command { client, asked } => add_command_line(script, client, asked),
    }
}

fn add_set_line(script: &mut Script, name: &[u8]) -> Result<Option<Fault>, AllocError>
    ensures { IfOk result (λ fault. ReadsForm fault script.old script.new (SetForm name.now)) }
{
    if let Some(fault) = set_fault(script, name) {
        return Ok(Some(fault));
    }
    add_set(script, name)?;
    Ok(None)
}

fn add_relative_line(
    script: &mut Script,
    name: &[u8],
    relative: &[u8],
) -> Result<Option<Fault>, AllocError>
    ensures { IfOk result (λ fault. ReadsForm fault script.old script.new (SetWithForm name.now relative.now)) }
{
    if let Some(fault) = set_with_fault(script, name, relative) {
        return Ok(Some(fault));
    }
    add_relative(script, name, relative)?;
    Ok(None)
}

fn add_client_line(
    script: &mut Script,
    name: &[u8],
    node: &[u8],
) -> Result<Option<Fault>, AllocError>
    ensures { IfOk result (λ fault. ReadsForm fault script.old script.new (ClientForm name.now node.now)) }
{
    if let Some(fault) = client_fault(script, name, node) {
        return Ok(Some(fault));
    }
    add_client(script, name, node)?;
    Ok(None)
}

// Adds a set in a family of its own.
fn add_set(script: &mut Script, name: &[u8]) -> Result<(), AllocError>
    requires { form_fault script.old.version (Some script.old) (SetForm name.now) ≡ None }
    ensures { OnOk result (script.new ≡ after_form script.old (SetForm name.now)) }
{
    let family = script.sets();
    script.add_set(name, family)
}

// Adds a set in the family of this one.
fn add_relative(script: &mut Script, name: &[u8], relative: &[u8]) -> Result<(), AllocError>
    requires { form_fault script.old.version (Some script.old) (SetWithForm name.now relative.now) ≡ None }
    ensures { OnOk result (script.new ≡ after_form script.old (SetWithForm name.now relative.now)) }
{
    let Some(set) = script.set_number(relative) else {
        unreachable!();
    };
    let family = script.family(set);
    script.add_set(name, family)
}

fn add_client(script: &mut Script, name: &[u8], node: &[u8]) -> Result<(), AllocError>
    requires { form_fault script.old.version (Some script.old) (ClientForm name.now node.now) ≡ None }
    ensures { OnOk result (script.new ≡ after_form script.old (ClientForm name.now node.now)) }
{
    let node = number(node).unwrap_or(0);
    prove!(node < u32::from(script.nodes()));
    script.add_client(name, node as u8)
}

// Adds the command, or tells its line's first fault.
fn add_command_line(
    script: &mut Script,
    client: &[u8],
    asked: CommandWords<'_>,
) -> Result<Option<Fault>, AllocError>
    requires { is_asked_in script.old.version (asked_seen asked) ≡ true }
    ensures { IfOk result
        (λ fault. ReadsForm fault script.old script.new (CommandForm client.now (asked_seen asked.entry))) }
{
    match request_of(script, client, asked) {
        Ok((client, command)) => {
            script.add_command(client, command)?;
            Ok(None)
        }
        Err(fault) => Ok(Some(fault)),
    }
}

// Adds a command of one mode in one set, or tells its first fault.
#[inline(always)]
fn add_one_mode(
    script: &mut Script,
    client: &[u8],
    asked: OneMode<'_>,
) -> Result<Option<Fault>, AllocError>
    ensures { IfOk result
        (λ fault. ReadsForm fault script.old script.new (CommandForm client.now (one_mode_seen asked.entry))) }
{
    match request_of_one_mode(script, client, asked) {
        Ok((client, command)) => {
            script.add_command(client, command)?;
            Ok(None)
        }
        Err(fault) => Ok(Some(fault)),
    }
}
