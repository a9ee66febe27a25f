ghost use Rattle.std.specs.Prelude.{◌≡◌, ℕ, List};
ghost use Rattle.lt_modes.specs.Script.{ScriptData};
ghost use Rattle.lt_spec.specs.Script.{IsScript};
ghost use Rattle.lt_journal.specs.declared.line.Line.{Line as AnyLine};
ghost use Rattle.lt_journal.specs.Grammar.{read_line};
ghost use Rattle.lt_text.specs.Text.{spaced};
ghost use Rattle.lt_journal.specs.RunLines.{line_words, IsAsWritten};
ghost use Rattle.lt_journal.specs.LineFits.{FitsLine};

/// A line that is not bad stands there exactly as it is written, and what is written of a line is read as it.
pub fn law_read_line()
    ensures written { (script : ScriptData) → (line : List ℕ)
        → IsAsWritten script line (read_line script line) }
    ensures read { (script : ScriptData) → (line : AnyLine) → IsScript script
        → FitsLine script line → read_line script (spaced (line_words script line)) ≡ line }
{}
