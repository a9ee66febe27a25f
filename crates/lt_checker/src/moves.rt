// The lines of moves, as they are read from bytes in which no line's end was looked for before.
ghost use Rattle.std.specs.Prelude.{◌≡◌, ◌<◌, ◌≤◌, ◌^◌, ◌++◌, ◌∷◌, length, decimal, position, IfSome};
ghost use Rattle.lt_text.specs.Text.{spaced, is_line_end};
ghost use Rattle.lt_modes.specs.Script.{client_name};
ghost use Rattle.lt_journal.specs.Grammar.{AreFirstDigits};
ghost use Rattle.lt_journal.specs.LineFits.{FitsLine, FitsStep};
ghost use Rattle.lt_journal.specs.RunLines.{step_words};
ghost use Rattle.lt_law_journals.specs.Checking.{written};

use lt_journal::Line;
use lt_modes::Step;
use lt_script::Script;

// Where fewer bytes are left, no line is looked for.
const LONG: usize = 64;

/// What the line says that the bytes begin with, if it is found as that of a move, and what stands after its line end.
/// One whose clock has twenty digits isn't, nor one near the end of the bytes.
#[inline(always)]
#[tactic(auto, using(crate::proofs::FirstLines::move_parts))]
pub(crate) fn first_move<'a>(script: &Script, bytes: &'a [u8]) -> Option<(Line, &'a [u8])>
    ensures fits { IfSome result (λ found. FitsLine script.now found.0) }
    ensures parts { IfSome result (λ found. bytes.now ≡ written script.now found.0 ++ 10 ∷ found.1.now) }
{
    if bytes.len() < LONG
        || bytes[0] != b'm'
        || bytes[1] != b'o'
        || bytes[2] != b'v'
        || bytes[3] != b'e'
        || bytes[4] != b' '
    {
        return None;
    }
    let (_, words) = bytes.split_at(5);
    let (clock, words) = first_clock(words)?;
    let (node, words) = first_node(script, words, b' ')?;
    let (step, later) = first_step(script, words)?;
    let line = Line::Move { clock, node, step };
    Some((line, later))
}

// The number of a clock that the bytes begin with, and what stands after the space behind it.
#[inline(always)]
#[tactic(auto, using(crate::proofs::FirstLines::clock_parts))]
fn first_clock(bytes: &[u8]) -> Option<(u64, &[u8])>
    requires { 20 ≤ length bytes.now }
    ensures { IfSome result (λ found. bytes.now ≡ decimal found.0 ++ 32 ∷ found.1.now) }
{
    let (number, count) = clock_digits(bytes);
    if count == 0 || bytes[0] == b'0' || bytes[count] != b' ' {
        return None;
    }
    let (_, later) = bytes.split_at(count + 1);
    Some((number, later))
}

// The number of the first digits, nineteen at most, and how many they are.
#[inline(always)]
fn clock_digits(bytes: &[u8]) -> (u64, usize)
    requires { 20 ≤ length bytes.now }
    ensures { AreFirstDigits bytes.now result.1 result.0 }
{
    let mut number: u64 = 0;
    let mut count = 0;
    while count < 19 && bytes[count].is_ascii_digit() {
        number = number * 10 + u64::from(bytes[count] - b'0');
        count += 1;
    }
    (number, count)
}

// The node of the script whose number the bytes begin with, and what stands after the byte `end` behind it.
#[inline(always)]
fn first_node<'a>(script: &Script, bytes: &'a [u8], end: u8) -> Option<(u8, &'a [u8])>
    ensures node { IfSome result (λ found. found.0 < script.now.nodes) }
    ensures parts { IfSome result (λ found. bytes.now ≡ decimal found.0 ++ end ∷ found.1.now) }
{
    let (number, later) = short_number(bytes, end)?;
    if number < script.nodes() {
        Some((number, later))
    } else {
        None
    }
}

// The number of one or two digits that the bytes begin with, and what stands after the byte `end` behind it.
#[inline(always)]
#[tactic(auto, using(crate::proofs::FirstLines::one_digit, crate::proofs::FirstLines::two_digits))]
fn short_number(bytes: &[u8], end: u8) -> Option<(u8, &[u8])>
    ensures { IfSome result (λ found. bytes.now ≡ decimal found.0 ++ end ∷ found.1.now) }
{
    if bytes.len() < 3 || !bytes[0].is_ascii_digit() {
        return None;
    }
    if bytes[1] == end {
        let (_, later) = bytes.split_at(2);
        return Some((bytes[0] - b'0', later));
    }
    if bytes[0] == b'0' || !bytes[1].is_ascii_digit() || bytes[2] != end {
        return None;
    }
    let (_, later) = bytes.split_at(3);
    Some(((bytes[0] - b'0') * 10 + (bytes[1] - b'0'), later))
}

// What a move does by the words that the bytes begin with, and what stands after the line end behind them.
#[inline(always)]
#[tactic(auto, using(crate::proofs::FirstLines::take_parts, crate::proofs::FirstLines::act_parts))]
fn first_step<'a>(script: &Script, bytes: &'a [u8]) -> Option<(Step, &'a [u8])>
    ensures fits { IfSome result (λ found. FitsStep script.now found.0) }
    ensures parts { IfSome result (λ found. bytes.now ≡ spaced (step_words script.now found.0) ++ 10 ∷ found.1.now) }
{
    if bytes.len() < 5 {
        return None;
    }
    if bytes[0] == b't'
        && bytes[1] == b'a'
        && bytes[2] == b'k'
        && bytes[3] == b'e'
        && bytes[4] == b' '
    {
        let (_, number) = bytes.split_at(5);
        let (from, later) = first_node(script, number, b'\n')?;
        return Some((Step::Take(from), later));
    }
    if bytes[0] == b'a' && bytes[1] == b'c' && bytes[2] == b't' && bytes[3] == b' ' {
        let (_, name) = bytes.split_at(4);
        let (client, later) = first_client(script, name)?;
        return Some((Step::Act(client), later));
    }
    None
}

// The client whose name the bytes begin with, and what stands after the line end behind it.
#[inline(always)]
#[tactic(auto, using(crate::proofs::FirstLines::client_parts))]
fn first_client<'a>(script: &Script, bytes: &'a [u8]) -> Option<(u16, &'a [u8])>
    ensures client { IfSome result (λ found. found.0 < length script.now.clients) }
    ensures parts { IfSome result (λ found. bytes.now ≡ client_name script.now found.0 ++ 10 ∷ found.1.now) }
{
    let size = line_end(bytes)?;
    let (name, _) = bytes.split_at(size);
    let (_, later) = bytes.split_at(size + 1);
    let client = script.client_number(name)?;
    Some((client, later))
}

// The place of the first line end.
#[inline(always)]
fn line_end(bytes: &[u8]) -> Option<usize>
    ensures { result ≡ position is_line_end bytes.now }
{
    bytes.iter().position(|byte| *byte == b'\n')
}
