// Frames, written at the end of bytes.
ghost use Rattle.std.specs.Prelude.{◌≡◌, ◌≤◌, ◌<◌, ◌+◌, ◌++◌, Err, OnOk, OnErr, drop, length, replicate, take, vec_capacity};
ghost use Rattle.lt_desk.specs.LetterSeen.{letter_seen};
ghost use Rattle.lt_letters.specs.Puts.{PutsBytes};
ghost use Rattle.lt_letters.specs.Spelling.{letter_bytes};
ghost use Rattle.lt_frames.specs.Frames.{frame_bytes, FrameFits};
ghost use Rattle.lt_frames.specs.Sealing.{seal_of};
ghost use Rattle.lt_frames.specs.Seen.{frame_of};
ghost use Rattle.lt_frames.specs.declared.fault.WriteError.TheVariants as errors;

use crate::fault::WriteError;
use crate::frame::{HEAD, MAX_LETTER, SEAL, VERSION, Wire};
use crate::head::{Head, head_array};
use crate::seal::digest_of;
use lt_desk::Letter;
use lt_letters::{letter_fits, write_letter};
use std::alloc::AllocError;

// Puts a head over the first bytes.
fn put_first(sealed: &mut [u8], head: &[u8])
    requires size { length head.now ≡ 23 }
    requires within { 23 ≤ length sealed.old }
    ensures { sealed.new ≡ head.now ++ drop 23 sealed.old }
{
    sealed[..HEAD].copy_from_slice(head);
}

// Puts a head over the bytes from the start on.
#[tactic(auto, using(crate::proofs::FrameText::over))]
fn put_over(out: &mut Vec<u8>, start: usize, head: &[u8])
    requires size { length head.now ≡ 23 }
    requires within { start + 23 ≤ length out.old.items }
    ensures items { out.new.items ≡ take start out.old.items ++ (head.now ++ drop 23 (drop start out.old.items)) }
    ensures room { vec_capacity out.new ≡ vec_capacity out.old }
{
    put_first(&mut out[start..], head);
}

// Writes the seal of all from the start on.
fn put_seal(out: &mut Vec<u8>, start: usize, key: &[u8]) -> Result<(), AllocError>
    requires { start ≤ length out.old.items }
    ensures { PutsBytes (seal_of key.now (drop start out.old.items)) out.old out.new result }
{
    let digest = digest_of(key, &out[start..]);
    out.extend_from_slice(&digest[..SEAL])
}

// Writes as many bytes as a head has, and then the letter.
fn put_letter(out: &mut Vec<u8>, letter: &Letter) -> Result<(), AllocError>
    ensures { PutsBytes (replicate 23 0 ++ letter_bytes (letter_seen letter.now)) out.old out.new result }
{
    out.extend_from_slice(&[0; HEAD])?;
    write_letter(out, letter)
}

// Writes the frame. Without memory, or if the letter is too long, some bytes of it may stand there.
fn put_frame(
    out: &mut Vec<u8>,
    key: &[u8],
    wire: Wire,
    number: u64,
    letter: &Letter,
) -> Result<(), WriteError>
    ensures written { OnOk result (out.new.items
        ≡ out.old.items ++ frame_bytes key.now (frame_of wire number (letter_seen letter.now))) }
    ensures fits { OnOk result (FrameFits (frame_of wire number (letter_seen letter.now))) }
    ensures front { take (length out.old.items) out.new.items ≡ out.old.items }
    ensures memory { result ≡ Err errors.Memory
        → vec_capacity out.old
        < length out.old.items + length (frame_bytes key.now (frame_of wire number (letter_seen letter.now))) }
    ensures long { result ≡ Err errors.TooLong → MAX_LETTER < length (letter_bytes (letter_seen letter.now)) }
    ensures room { vec_capacity out.old ≤ vec_capacity out.new }
{
    letter_fits(letter);
    let start = out.len();
    put_letter(out, letter)?;
    let length = out.len() - start - HEAD;
    if length > MAX_LETTER as usize {
        return Err(WriteError::TooLong);
    }
    let head = Head {
        length: length as u32,
        version: VERSION,
        wire,
        number,
    };
    put_over(out, start, &head_array(head));
    put_seal(out, start, key)?;
    Ok(())
}

/// Writes the letter's frame at the end, sealed under the key: it goes by this wire, and has this number among its
/// letters. If it isn't written, the bytes are as they were.
pub fn write_frame(
    out: &mut Vec<u8>,
    key: &[u8],
    wire: Wire,
    number: u64,
    letter: &Letter,
) -> Result<(), WriteError>
    ensures written { OnOk result (out.new.items
        ≡ out.old.items ++ frame_bytes key.now (frame_of wire number (letter_seen letter.now))) }
    ensures fits { OnOk result (FrameFits (frame_of wire number (letter_seen letter.now))) }
    ensures kept { OnErr result (out.new.items ≡ out.old.items) }
    ensures memory { result ≡ Err errors.Memory
        → vec_capacity out.old
        < length out.old.items + length (frame_bytes key.now (frame_of wire number (letter_seen letter.now))) }
    ensures long { result ≡ Err errors.TooLong → MAX_LETTER < length (letter_bytes (letter_seen letter.now)) }
    ensures room { vec_capacity out.old ≤ vec_capacity out.new }
{
    let start = out.len();
    let written = put_frame(out, key, wire, number, letter);
    if written.is_err() {
        out.truncate(start);
    }
    written
}
