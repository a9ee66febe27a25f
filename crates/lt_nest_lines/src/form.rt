ghost use Rattle.std.specs.Prelude.{◌≡◌, option_map};
ghost use Rattle.lt_text.specs.Text.{words};
ghost use Rattle.lt_nest_lines.specs.Forms.{form_data, form_of_words, set_line_form, transaction_form, short_form, long_form, begin_in_form};

use lt_text::{is, next_word};

/// A line by its form, with its words.
#[derive(Clone, Copy)]
pub enum Form<'a> {
    Set {
        set: &'a [u8],
    },
    Begin {
        transaction: &'a [u8],
    },
    BeginIn {
        transaction: &'a [u8],
        parent: &'a [u8],
    },
    Lock {
        transaction: &'a [u8],
        set: &'a [u8],
        mode: &'a [u8],
    },
    Try {
        transaction: &'a [u8],
        set: &'a [u8],
        mode: &'a [u8],
    },
    Commit {
        transaction: &'a [u8],
    },
    Abort {
        transaction: &'a [u8],
    },
}

/// The form of a line; none if it has none.
pub fn form_of<'a>(line: &'a [u8]) -> Option<Form<'a>>
    ensures { option_map form_data result ≡ form_of_words (words line.now) }
{
    let Some((word, rest)) = next_word(line) else {
        return None;
    };
    if is(word, "set") {
        set_form(rest)
    } else {
        transaction_form(word, rest)
    }
}

// The form of a line that begins with `set`.
fn set_form<'a>(line: &'a [u8]) -> Option<Form<'a>>
    ensures { option_map form_data result ≡ set_line_form (words line.now) }
{
    let Some((set, rest)) = next_word(line) else {
        return None;
    };
    if next_word(rest).is_some() {
        return None;
    }
    Some(Form::Set { set })
}

// The form of a line that begins with a transaction.
fn transaction_form<'a>(transaction: &'a [u8], line: &'a [u8]) -> Option<Form<'a>>
    ensures { option_map form_data result ≡ transaction_form transaction.now (words line.now) }
{
    let Some((verb, rest)) = next_word(line) else {
        return None;
    };
    let Some((first, rest)) = next_word(rest) else {
        return short_form(transaction, verb);
    };
    let Some((second, rest)) = next_word(rest) else {
        return None;
    };
    if next_word(rest).is_some() {
        return None;
    }
    long_form(transaction, verb, first, second)
}

// The form of a transaction and a verb.
fn short_form<'a>(transaction: &'a [u8], verb: &[u8]) -> Option<Form<'a>>
    ensures { option_map form_data result ≡ short_form transaction.now verb.now }
{
    if is(verb, "begin") {
        Some(Form::Begin { transaction })
    } else if is(verb, "commit") {
        Some(Form::Commit { transaction })
    } else if is(verb, "abort") {
        Some(Form::Abort { transaction })
    } else {
        None
    }
}

// The form of a transaction, a verb and two words.
fn long_form<'a>(
    transaction: &'a [u8],
    verb: &[u8],
    first: &'a [u8],
    second: &'a [u8],
) -> Option<Form<'a>>
    ensures { option_map form_data result ≡ long_form transaction.now verb.now first.now second.now }
{
    if is(verb, "begin") {
        begin_in_form(transaction, first, second)
    } else if is(verb, "lock") {
        Some(Form::Lock {
            transaction,
            set: first,
            mode: second,
        })
    } else if is(verb, "try") {
        Some(Form::Try {
            transaction,
            set: first,
            mode: second,
        })
    } else {
        None
    }
}

// The form of a transaction that begins, a word and its parent.
fn begin_in_form<'a>(transaction: &'a [u8], word: &[u8], parent: &'a [u8]) -> Option<Form<'a>>
    ensures { option_map form_data result ≡ begin_in_form transaction.now word.now parent.now }
{
    if is(word, "in") {
        Some(Form::BeginIn {
            transaction,
            parent,
        })
    } else {
        None
    }
}
