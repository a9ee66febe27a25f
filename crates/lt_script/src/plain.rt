// Whether a text has printable ASCII, tabs and line feeds alone.
ghost use Rattle.std.specs.Prelude.{◌≡◌};
ghost use Rattle.std.specs.List.{list_all};
ghost use Rattle.lt_script.specs.Faults.{is_plain_byte};
ghost use Rattle.lt_script.specs.Steps.{is_text_byte, is_plain_line};

/// Whether the text has plain bytes and line feeds alone, so that each of its lines is plain.
pub fn is_plain_text(text: &[u8]) -> bool
    ensures { result ≡ list_all is_text_byte text.now }
{
    let mut is_plain = true;
    for byte in text {
        is_plain &= is_text_byte(*byte);
    }
    is_plain
}

fn is_text_byte(byte: u8) -> bool
    ensures { result ≡ is_text_byte byte }
{
    is_plain_byte(byte) || byte == b'\n'
}

/// Whether the line has plain bytes alone.
///
/// It goes to the end where an early byte is none, so that several bytes are looked at in one step.
pub fn is_plain_line(line: &[u8]) -> bool
    ensures { result ≡ is_plain_line line.now }
{
    let mut is_plain = true;
    for byte in line {
        is_plain &= is_plain_byte(*byte);
    }
    is_plain
}

fn is_plain_byte(byte: u8) -> bool
    ensures { result ≡ is_plain_byte byte }
{
    byte == b'\t' || b' ' <= byte && byte <= b'~'
}
