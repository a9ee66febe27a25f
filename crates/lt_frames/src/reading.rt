// Frames, read from the front of bytes.
ghost use Rattle.std.specs.Prelude.{◌≡◌, ◌≤◌, ◌+◌, ◌++◌, ℕ, List, Ok, Err, Some, None, IfOk, IfSome, drop, length, take};
ghost use Rattle.lt_letters.specs.Reading.{whole_from};
ghost use Rattle.lt_letters.specs.declared.fault.Fault.{Fault};
ghost use Rattle.lt_frames.specs.Frames.{Numbered, frame_bytes, FrameFits};
ghost use Rattle.lt_frames.specs.Reading.{frame_from, is_sealed, letter_in, rest_from};
ghost use Rattle.lt_frames.specs.Seen.{refused, FindsFrame, IsFrameAt, found_of};
ghost use Rattle.lt_frames.specs.Causes.{IsUnfinished, IsFrameCause, BeginWithFrame};
ghost use Rattle.lt_frames.specs.declared.fault.FrameError.TheVariants as errors;
ghost use Rattle.lt_frames.specs.declared.fault.FrameFault.TheVariants as faults;

use crate::fault::{FrameError, FrameFault};
use crate::frame::{Frame, HEAD, SEAL, Wire};
use crate::head::{Head, head_fault, head_of};
use crate::seal::{are_same, digest_of};
use lt_letters::{ReadError, read_letter};
use std::alloc::Global;

// Whether the seal after so many bytes is theirs.
fn is_sealed(key: &[u8], bytes: &[u8], size: usize) -> bool
    requires { size + 16 ≤ length bytes.now }
    ensures { result ≡ is_sealed key.now bytes.now size }
{
    let (sealed, rest) = bytes.split_at(size);
    let digest = digest_of(key, sealed);
    are_same(&digest[..SEAL], &rest[..SEAL])
}

// So many bytes after a head.
fn text_of(bytes: &[u8], size: usize) -> &[u8]
    requires { 23 + size ≤ length bytes.now }
    ensures { result.now ≡ take size (drop 23 bytes.now) }
{
    let (_head, after) = bytes.split_at(HEAD);
    let (text, _rest) = after.split_at(size);
    text
}

// The letter of a frame whose seal is right.
fn letter_in(alloc: Global, head: Head, text: &[u8]) -> Result<Option<Frame>, FrameError>
    ensures { FindsFrame result (letter_in head (whole_from text.now)) }
{
    match read_letter(alloc, text) {
        Ok(letter) => Ok(Some(Frame {
            number: head.number,
            letter,
            size: HEAD + head.length as usize + SEAL,
        })),
        Err(ReadError::Memory) => Err(FrameError::Memory),
        Err(ReadError::Fault(fault)) => Err(FrameError::Fault(FrameFault::Letter(fault))),
    }
}

// The frame of which this is the head.
fn rest_of(alloc: Global, key: &[u8], bytes: &[u8], head: Head) -> Result<Option<Frame>, FrameError>
    ensures { FindsFrame result (rest_from key.now bytes.now head) }
{
    let end = HEAD + head.length as usize;
    if bytes.len() < end + SEAL {
        return Ok(None);
    }
    if !is_sealed(key, bytes, end) {
        return Err(FrameError::Fault(FrameFault::Seal));
    }
    letter_in(alloc, head, text_of(bytes, head.length as usize))
}

#[tactic(auto, unfolding(crate::specs::Reading::frame_from))]
fn frame_in(
    alloc: Global,
    key: &[u8],
    wire: Wire,
    bytes: &[u8],
) -> Result<Option<Frame>, FrameError>
    ensures exact { FindsFrame result (frame_from key.now wire bytes.now) }
{
    let (head, _rest) = match head_of(bytes) {
        Ok(read) => read,
        Err(_short) => return Ok(None),
    };
    match head_fault(wire, head) {
        Some(fault) => Err(FrameError::Fault(fault)),
        None => rest_of(alloc, key, bytes, head),
    }
}

/// The frame of this wire that stands at the front of the bytes, under this key. The bytes may be any; where a frame
/// isn't there to its end, there is none yet.
///
/// Nothing is built before the seal was found right, and then nothing before all of the letter was seen. The seal is
/// compared as a whole, so that the time tells nothing of where it differs.
pub fn read_frame(
    alloc: Global,
    key: &[u8],
    wire: Wire,
    bytes: &[u8],
) -> Result<Option<Frame>, FrameError>
    ensures found { IfOk result (λ read. IfSome read (λ frame. IsFrameAt key.now wire bytes.now frame)) }
    ensures again { (f : Numbered) (rest : List ℕ) → f.wire ≡ wire → FrameFits f
        → bytes.now ≡ frame_bytes key.now f ++ rest → FindsFrame result (Ok (Some (found_of key.now f))) }
    ensures unfinished { result ≡ Ok None → IsUnfinished wire bytes.now }
    ensures memory { result ≡ Err errors.Memory → BeginWithFrame key.now wire bytes.now }
    ensures too_long { result ≡ refused faults.TooLong → IsFrameCause key.now wire faults.TooLong bytes.now }
    ensures version { result ≡ refused faults.Version → IsFrameCause key.now wire faults.Version bytes.now }
    ensures service { result ≡ refused faults.Service → IsFrameCause key.now wire faults.Service bytes.now }
    ensures sender { result ≡ refused faults.Sender → IsFrameCause key.now wire faults.Sender bytes.now }
    ensures receiver { result ≡ refused faults.Receiver → IsFrameCause key.now wire faults.Receiver bytes.now }
    ensures seal { result ≡ refused faults.Seal → IsFrameCause key.now wire faults.Seal bytes.now }
    ensures letter { (fault : Fault) → result ≡ refused (faults.Letter fault)
        → IsFrameCause key.now wire (faults.Letter fault) bytes.now }
    ensures exact { FindsFrame result (frame_from key.now wire bytes.now) }
{
    frame_in(alloc, key, wire, bytes)
}
