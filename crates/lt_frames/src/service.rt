// The number of a service.
ghost use Rattle.std.specs.Prelude.{◌≡◌};
ghost use Rattle.lt_frames.specs.Sealing.{service_number};

use crate::seal::digest_of;

/// The number that all nodes of a service are opened under: made of the text of their script and the number of this
/// start, so that nodes of another script or of an earlier start take nothing of this one's for their own.
pub fn service_number(text: &[u8], start: u64) -> u64
    ensures { result ≡ service_number text.now start }
{
    let digest = digest_of(text, &start.to_le_bytes());
    u64::from_le_bytes([
        digest[0], digest[1], digest[2], digest[3], digest[4], digest[5], digest[6], digest[7],
    ])
}
