ghost use Rattle.std.specs.Prelude.{◌≡◌, ◌++◌, OnOk, IfOk};
ghost use Rattle.lt_text.specs.Text.{spaced};
ghost use Rattle.lt_journal.specs.RunLines.{line_words, lines_text};

use crate::events::{lock, set_and_node, words_of_event, words_of_move};
use crate::line::Line;
use crate::text::Text;
use lt_script::Script;
use std::alloc::{AllocError, Global};

/// How the line is written, without its line end. A bad line is written with no words.
pub fn write_line(alloc: Global, script: &Script, line: Line) -> Result<Vec<u8>, AllocError>
    ensures { IfOk result (λ text. text.items ≡ spaced (line_words script.now line)) }
{
    let mut text = Text::new(alloc);
    write_words(&mut text, script, line)?;
    Ok(text.into_bytes())
}

/// Writes how the line is written behind what the text has so far. If memory runs out, a part of it may have been
/// written.
pub fn write_words(text: &mut Text, script: &Script, line: Line) -> Result<(), AllocError>
    ensures { OnOk result (text.new ≡ text.old ++ spaced (line_words script.now line)) }
{
    match line {
        Line::Version2 => {
            text.first_word("version")?;
            text.word(b"2")
        }
        Line::Version3 => {
            text.first_word("version")?;
            text.word(b"3")
        }
        Line::Move { clock, node, step } => words_of_move(text, script, clock, node, step),
        Line::Event(event) => words_of_event(text, script, event),
        Line::Held {
            client,
            set,
            mode,
            count,
        } => {
            lock(text, script, b"held", client, set, mode)?;
            text.number(count)
        }
        Line::Waiting { client, set, mode } => lock(text, script, b"waiting", client, set, mode),
        Line::Owner { set, node, epoch } => {
            set_and_node(text, script, "owner", set, node)?;
            text.number(epoch)
        }
        Line::End { count } => {
            text.first_word("end")?;
            text.number(count)
        }
        Line::Cut { node } => {
            text.first_word("cut")?;
            text.number(u64::from(node))
        }
        Line::Bad => Ok(()),
    }
}

/// Writes the lines, each with its line end.
pub(crate) fn write_lines(
    text: &mut Text,
    script: &Script,
    lines: &[Line],
) -> Result<(), AllocError>
    ensures { OnOk result (text.new ≡ text.old ++ lines_text script.now lines.now) }
{
    for line in lines {
        write_words(text, script, *line)?;
        text.end_line()?;
    }
    Ok(())
}
