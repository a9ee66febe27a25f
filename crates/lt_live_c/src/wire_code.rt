// Numbers for C: why a frame was not taken in, or not given out.
ghost use Rattle.std.specs.Prelude.{◌≡◌};
ghost use Rattle.lt_live_c.specs.Nodes.{number_of_error as the_error, number_of_fault as the_fault};

use crate::code::{
    AGAIN, BAD_SEAL, MISSING, NO_LETTER, NO_MEMORY, OTHER_NODE, OTHER_SERVICE, OTHER_VERSION,
    TOO_LONG,
};
use lt_apart::WireFault;
use lt_frames::WriteError;

/// Why a frame was not taken in.
pub fn number_of_fault(fault: WireFault) -> u32
    ensures { result ≡ the_fault fault }
{
    match fault {
        WireFault::Memory => NO_MEMORY,
        WireFault::TooLong => TOO_LONG,
        WireFault::Version => OTHER_VERSION,
        WireFault::Service => OTHER_SERVICE,
        WireFault::Sender => OTHER_NODE,
        WireFault::Receiver => OTHER_NODE,
        WireFault::Seal => BAD_SEAL,
        WireFault::Letter(_) => NO_LETTER,
        WireFault::Again => AGAIN,
        WireFault::Missing => MISSING,
    }
}

/// Why no frame was written.
pub fn number_of_error(error: WriteError) -> u32
    ensures { result ≡ the_error error }
{
    match error {
        WriteError::Memory => NO_MEMORY,
        WriteError::TooLong => TOO_LONG,
    }
}
