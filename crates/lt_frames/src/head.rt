// What stands before a letter.
ghost use Rattle.std.specs.Prelude.{◌≡◌};
ghost use Rattle.lt_letters.specs.Seen.{IsReading};
ghost use Rattle.lt_frames.specs.Frames.{head_bytes};
ghost use Rattle.lt_frames.specs.Reading.{head_from, head_fault};

use crate::fault::FrameFault;
use crate::frame::{MAX_LETTER, VERSION, Wire};
use lt_letters::{Fault, byte_of, u32_of, u64_of};

/// The fields of a head, as they stand there.
#[derive(Clone, Copy, Debug, PartialEq, Eq)]
pub struct Head {
    pub length: u32,
    pub version: u8,
    pub wire: Wire,
    pub number: u64,
}

#[tactic(auto, unfolding(crate::specs::Reading::head_from))]
pub(crate) fn head_of(bytes: &[u8]) -> Result<(Head, &[u8]), Fault>
    ensures { IsReading (λ x. (x.0, x.1.now)) result (head_from bytes.now) }
{
    let (length, rest) = u32_of(bytes)?;
    let (version, rest) = byte_of(rest)?;
    let (service, rest) = u64_of(rest)?;
    let (from, rest) = byte_of(rest)?;
    let (to, rest) = byte_of(rest)?;
    let (number, rest) = u64_of(rest)?;
    let head = Head {
        length,
        version,
        wire: Wire { service, from, to },
        number,
    };
    Ok((head, rest))
}

// The bytes of a head.
pub(crate) fn head_array(head: Head) -> [u8; 23]
    ensures { result ≡ head_bytes head }
{
    let length = head.length.to_le_bytes();
    let service = head.wire.service.to_le_bytes();
    let number = head.number.to_le_bytes();
    [
        length[0],
        length[1],
        length[2],
        length[3],
        head.version,
        service[0],
        service[1],
        service[2],
        service[3],
        service[4],
        service[5],
        service[6],
        service[7],
        head.wire.from,
        head.wire.to,
        number[0],
        number[1],
        number[2],
        number[3],
        number[4],
        number[5],
        number[6],
        number[7],
    ]
}

// What is wrong with it for one who reads frames of this wire.
pub(crate) fn head_fault(wire: Wire, head: Head) -> Option<FrameFault>
    ensures { result ≡ head_fault wire head }
{
    if head.length > MAX_LETTER {
        Some(FrameFault::TooLong)
    } else if head.version != VERSION {
        Some(FrameFault::Version)
    } else if head.wire.service != wire.service {
        Some(FrameFault::Service)
    } else if head.wire.from != wire.from {
        Some(FrameFault::Sender)
    } else if head.wire.to != wire.to {
        Some(FrameFault::Receiver)
    } else {
        None
    }
}
