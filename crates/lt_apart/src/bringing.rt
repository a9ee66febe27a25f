// Letters that come in as bytes.
ghost use Rattle.std.specs.Prelude.{◌≡◌, ◌<◌, List, Ok, None, length, IfOk, IfErr, IfSome};
ghost use Rattle.lt_modes.specs.State.{Letter};
ghost use Rattle.lt_mail.specs.Words.{outs_count, sent_to, SameEnds};
ghost use Rattle.lt_frames.specs.Causes.{IsUnfinished};
ghost use Rattle.lt_frames.specs.Seen.{IsFrameAt};
ghost use Rattle.lt_apart.specs.Remote.{AreCounts, brought, nodes};
ghost use Rattle.lt_apart.specs.Carrying.{wire_from, BringsIn, BringsNext, OnlyBrings, StopsBringing, WaitsForMore, letters_used};
ghost use Rattle.lt_apart.specs.Faults.{IsWireCause, number_fault};

use crate::ends::Ends;
use crate::fault::{Refused, WireFault, of_frame};
use crate::remote::Remote;
use lt_frames::{Frame, FrameError, Wire, read_frame};
use std::alloc::Global;

impl Remote {
    /// Takes in the letters of a node whose frames stand at the front of the bytes, as far as these are whole, and
    /// answers how many bytes they have. The bytes that are left are to be brought again, with those that come after
    /// them.
    ///
    /// The bytes may be any. After one of its frames was refused the node is as it was after those before it.
    pub fn bring_in(&mut self, alloc: Global, from: u8, bytes: &[u8]) -> Result<usize, Refused>
        requires peer { from < nodes self.old }
        ensures brings { BringsIn self.old.key (wire_from self.old from) (letters_used result) (brought self.old from)
            (brought self.new from) bytes.now }
        ensures stops { StopsBringing self.old.key (wire_from self.old from) self.new.far bytes.now result }
        ensures only { OnlyBrings from self.old.far self.new.far }
        ensures same { (self.new.service ≡ self.old.service) × (self.new.key ≡ self.old.key)
            × (self.new.station ≡ self.old.station) }
    {
        let wire = Wire {
            service: self.service,
            from,
            to: self.station.node(),
        };
        bring_letters(alloc, &mut self.ends, &self.key, wire, bytes)
    }
}

// The same over the far ends.
fn bring_letters(
    alloc: Global,
    ends: &mut Ends,
    key: &[u8],
    wire: Wire,
    bytes: &[u8],
) -> Result<usize, Refused>
    requires peer { wire.from < outs_count ends.old.far }
    requires counts { AreCounts (outs_count ends.old.far) ends.old.brought.items (sent_to ends.old.far) }
    ensures counts { AreCounts (outs_count ends.new.far) ends.new.brought.items (sent_to ends.new.far) }
    ensures ends { SameEnds ends.old.far ends.new.far }
    ensures brings { BringsIn key.now wire (letters_used result) (sent_to ends.old.far wire.from)
        (sent_to ends.new.far wire.from) bytes.now }
    ensures stops { StopsBringing key.now wire ends.new.far bytes.now result }
    ensures only { OnlyBrings wire.from ends.old.far ends.new.far }
    ensures given { ends.new.given ≡ ends.old.given }
{
    let mut used = 0;
    loop {
        match bring_next(alloc, ends, key, wire, &bytes[used..]) {
            Ok(Some(size)) => used += size,
            Ok(None) => return Ok(used),
            Err(fault) => return Err(Refused { used, fault }),
        }
    }
}

// The letter of the frame that stands at the front of the bytes goes into its ring.
fn bring_next(
    alloc: Global,
    ends: &mut Ends,
    key: &[u8],
    wire: Wire,
    bytes: &[u8],
) -> Result<Option<usize>, WireFault>
    requires peer { wire.from < outs_count ends.old.far }
    requires counts { AreCounts (outs_count ends.old.far) ends.old.brought.items (sent_to ends.old.far) }
    ensures counts { AreCounts (outs_count ends.new.far) ends.new.brought.items (sent_to ends.new.far) }
    ensures ends { SameEnds ends.old.far ends.new.far }
    ensures brings { BringsNext key.now wire result (sent_to ends.old.far wire.from)
        (sent_to ends.new.far wire.from) bytes.now }
    ensures waits { result ≡ Ok None → WaitsForMore wire ends.new.far bytes.now }
    ensures cause { IfErr result (λ fault. IsWireCause key.now wire (sent_to ends.new.far wire.from) fault bytes.now) }
    ensures only { OnlyBrings wire.from ends.old.far ends.new.far }
    ensures given { ends.new.given ≡ ends.old.given }
{
    ends.far.flush(wire.from);
    let number = ends.brought[usize::from(wire.from)];
    if number == u64::MAX || ends.far.waits(wire.from) {
        return Ok(None);
    }
    let frame = match frame_at(alloc, key, wire, number, bytes) {
        Ok(Some(frame)) => frame,
        Ok(None) => return Ok(None),
        Err(fault) => return Err(fault),
    };
    if ends.far.reserve(1).is_err() {
        return Err(WireFault::Memory);
    }
    ends.far.put(wire.from, frame.letter);
    ends.far.flush(wire.from);
    ends.brought[usize::from(wire.from)] = number + 1;
    Ok(Some(frame.size))
}

// The frame with this number that stands at the front of the bytes.
#[tactic(auto, using(crate::proofs::BroughtIn::number_is, crate::proofs::BroughtIn::number_cause))]
fn frame_at(
    alloc: Global,
    key: &[u8],
    wire: Wire,
    number: u64,
    bytes: &[u8],
) -> Result<Option<Frame>, WireFault>
    ensures found { IfOk result (λ read. IfSome read (λ frame. IsFrameAt key.now wire bytes.now frame
        × (frame.number ≡ number))) }
    ensures unfinished { result ≡ Ok None → IsUnfinished wire bytes.now }
    ensures cause { IfErr result (λ fault. (letters : List Letter) → length letters ≡ number
        → IsWireCause key.now wire letters fault bytes.now) }
{
    match read_frame(alloc, key, wire, bytes) {
        Ok(None) => Ok(None),
        Ok(Some(frame)) => match number_fault(frame.number, number) {
            None => Ok(Some(frame)),
            Some(fault) => Err(fault),
        },
        Err(FrameError::Memory) => Err(WireFault::Memory),
        Err(FrameError::Fault(fault)) => Err(of_frame(fault)),
    }
}

// What is wrong with a frame of this number, where that is the next one.
fn number_fault(number: u64, next: u64) -> Option<WireFault>
    ensures { result ≡ number_fault number next }
{
    if number < next {
        Some(WireFault::Again)
    } else if next < number {
        Some(WireFault::Missing)
    } else {
        None
    }
}
