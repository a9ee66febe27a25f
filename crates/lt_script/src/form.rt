ghost use Rattle.std.specs.Prelude.{◌≡◌, ◌∷◌, true, option_map, IfSome};
ghost use Rattle.lt_text.specs.Text.{words};
ghost use Rattle.lt_script.specs.Forms.{form_seen, asked_seen, form_of, form_in, is_form_in, is_asked_in, version_form, nodes_form, set_form, client_form, asked_of, asked_in_two, CommandForm};
ghost use Rattle.lt_script.specs.Steps.{begins_declaration};

use lt_text::{is, next_word};

/// What a client asks for, in the words of its line.
#[derive(Clone, Copy)]
pub enum CommandWords<'a> {
    Lock {
        set: &'a [u8],
        mode: &'a [u8],
    },
    Try {
        set: &'a [u8],
        mode: &'a [u8],
    },
    Unlock {
        set: &'a [u8],
        mode: &'a [u8],
    },
    Change {
        set: &'a [u8],
        gives_up: &'a [u8],
        mode: &'a [u8],
    },
    Drop {
        client: &'a [u8],
        set: &'a [u8],
    },
    Withdraw {
        client: &'a [u8],
        set: &'a [u8],
    },
}

/// A line of a script by its form, with its words.
#[derive(Clone, Copy)]
pub enum Form<'a> {
    /// The line `version 2`.
    Version2,
    /// The line `version 3`.
    Version3,
    Nodes {
        nodes: &'a [u8],
    },
    Set {
        name: &'a [u8],
    },
    /// A set in the family of another one.
    SetWith {
        name: &'a [u8],
        relative: &'a [u8],
    },
    Client {
        name: &'a [u8],
        node: &'a [u8],
    },
    Command {
        client: &'a [u8],
        asked: CommandWords<'a>,
    },
}

/// The form of a line that begins with this word, by what stands after the word; none if it has none in any version.
pub fn form_of<'a>(word: &'a [u8], rest: &'a [u8]) -> Option<Form<'a>>
    ensures { option_map form_seen result ≡ form_of (word.now ∷ words rest.now) }
{
    if is(word, "version") {
        version_form(rest)
    } else if is(word, "nodes") {
        nodes_form(rest)
    } else if is(word, "set") {
        set_form(rest)
    } else if is(word, "client") {
        client_form(rest)
    } else {
        command_form(word, rest)
    }
}

/// The same in a script of this version: none if the form is not one of it.
pub fn form_in<'a>(version: u8, word: &'a [u8], rest: &'a [u8]) -> Option<Form<'a>>
    ensures form { option_map form_seen result ≡ form_in version (word.now ∷ words rest.now) }
    ensures own { IfSome result (λ form. is_form_in version (form_seen form) ≡ true) }
{
    let Some(form) = form_of(word, rest) else {
        return None;
    };
    if is_form_in(version, form) {
        Some(form)
    } else {
        None
    }
}

// Whether the form is one of this version.
fn is_form_in(version: u8, form: Form<'_>) -> bool
    ensures { result ≡ is_form_in version (form_seen form.entry) }
{
    match form {
        Form::Version3 => version == 3,
        Form::Command { asked, .. } => is_asked_in(version, asked),
        _ => true,
    }
}

// The same of a command's form.
fn is_asked_in(version: u8, asked: CommandWords<'_>) -> bool
    ensures { result ≡ is_asked_in version (asked_seen asked.entry) }
{
    match asked {
        CommandWords::Withdraw { .. } => version == 3,
        _ => true,
    }
}

/// Whether a line that begins with this word is none of a command.
pub fn begins_declaration(word: &[u8]) -> bool
    ensures { result ≡ begins_declaration word.now }
{
    is(word, "version") || is(word, "nodes") || is(word, "set") || is(word, "client")
}

// The form of a line that begins with `version`.
fn version_form<'a>(line: &'a [u8]) -> Option<Form<'a>>
    ensures { option_map form_seen result ≡ version_form (words line.now) }
{
    let Some((version, rest)) = next_word(line) else {
        return None;
    };
    if next_word(rest).is_some() {
        None
    } else if is(version, "2") {
        Some(Form::Version2)
    } else if is(version, "3") {
        Some(Form::Version3)
    } else {
        None
    }
}

// The form of a line that begins with `nodes`.
fn nodes_form<'a>(line: &'a [u8]) -> Option<Form<'a>>
    ensures { option_map form_seen result ≡ nodes_form (words line.now) }
{
    let Some((nodes, rest)) = next_word(line) else {
        return None;
    };
    if next_word(rest).is_some() {
        return None;
    }
    Some(Form::Nodes { nodes })
}

// The form of a line that begins with `set`.
fn set_form<'a>(line: &'a [u8]) -> Option<Form<'a>>
    ensures { option_map form_seen result ≡ set_form (words line.now) }
{
    let Some((name, rest)) = next_word(line) else {
        return None;
    };
    let Some((word, rest)) = next_word(rest) else {
        return Some(Form::Set { name });
    };
    let Some((relative, rest)) = next_word(rest) else {
        return None;
    };
    if next_word(rest).is_some() || !is(word, "with") {
        return None;
    }
    Some(Form::SetWith { name, relative })
}

// The form of a line that begins with `client`.
fn client_form<'a>(line: &'a [u8]) -> Option<Form<'a>>
    ensures { option_map form_seen result ≡ client_form (words line.now) }
{
    let Some((name, rest)) = next_word(line) else {
        return None;
    };
    let Some((word, rest)) = next_word(rest) else {
        return None;
    };
    let Some((node, rest)) = next_word(rest) else {
        return None;
    };
    if next_word(rest).is_some() || !is(word, "at") {
        return None;
    }
    Some(Form::Client { name, node })
}

// The form of a command's line, which begins with the client's name.
fn command_form<'a>(client: &'a [u8], line: &'a [u8]) -> Option<Form<'a>>
    ensures { option_map form_seen result ≡ option_map (CommandForm client.now) (asked_of (words line.now)) }
{
    let Some(asked) = asked_of(line) else {
        return None;
    };
    Some(Form::Command { client, asked })
}

// What is asked for in a command's line, by what stands behind the client's name.
fn asked_of<'a>(line: &'a [u8]) -> Option<CommandWords<'a>>
    ensures { option_map asked_seen result ≡ asked_of (words line.now) }
{
    let Some((verb, rest)) = next_word(line) else {
        return None;
    };
    let Some((first, rest)) = next_word(rest) else {
        return None;
    };
    let Some((second, rest)) = next_word(rest) else {
        return None;
    };
    let Some((third, rest)) = next_word(rest) else {
        return asked_in_two(verb, first, second);
    };
    if next_word(rest).is_some() || !is(verb, "change") {
        return None;
    }
    Some(CommandWords::Change {
        set: first,
        gives_up: second,
        mode: third,
    })
}

// What a verb and two words ask for.
fn asked_in_two<'a>(verb: &[u8], first: &'a [u8], second: &'a [u8]) -> Option<CommandWords<'a>>
    ensures { option_map asked_seen result ≡ asked_in_two verb.now first.now second.now }
{
    if is(verb, "lock") {
        Some(CommandWords::Lock {
            set: first,
            mode: second,
        })
    } else if is(verb, "try") {
        Some(CommandWords::Try {
            set: first,
            mode: second,
        })
    } else if is(verb, "unlock") {
        Some(CommandWords::Unlock {
            set: first,
            mode: second,
        })
    } else if is(verb, "drop") {
        Some(CommandWords::Drop {
            client: first,
            set: second,
        })
    } else if is(verb, "withdraw") {
        Some(CommandWords::Withdraw {
            client: first,
            set: second,
        })
    } else {
        None
    }
}
