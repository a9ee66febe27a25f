// The call that tells the first fault of a script.
ghost use Rattle.lt_live_c.specs.Opening.{TellsFault};

use crate::code::{BAD_SCRIPT, NO_MEMORY, OK, TOO_MANY};
use crate::limits::MAX_BYTES;
use lt_script::ReadError;
use std::alloc::Global;

/// Tells whether the text is a script, and else the line and the number of its first fault.
#[unsafe(no_mangle)]
pub extern "C" fn lockrun_fault(alloc: Global, text: &[u8], line: &mut u64, fault: &mut u32) -> u32
    ensures { TellsFault text.now result line.old line.new fault.old fault.new }
{
    if text.len() > MAX_BYTES {
        return TOO_MANY;
    }
    match lt_script::read(alloc, text) {
        Ok(_) => OK,
        Err(ReadError::Memory) => NO_MEMORY,
        Err(ReadError::Fault(found)) => {
            *line = u64::from(found.line);
            *fault = u32::from(found.fault.number());
            BAD_SCRIPT
        }
    }
}
