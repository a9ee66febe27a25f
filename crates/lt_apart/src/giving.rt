// Letters that go out as bytes.
ghost use Rattle.std.specs.Prelude.{◌≡◌, ◌<◌, ◌≤◌, Ok, Err, true, false, length, IfOk, OnErr, MatchBool};
ghost use Rattle.lt_mail.specs.Words.{sent_to, taken_from};
ghost use Rattle.lt_frames.specs.declared.fault.WriteError.TheVariants as errors;
ghost use Rattle.lt_apart.specs.Remote.{HasFarEnds, CarriesNone, given, nodes};
ghost use Rattle.lt_apart.specs.Carrying.{wire_to, GivesOut, OnlyGives, HasGivenAll, NextIsTooLong, gave};

use crate::ends::Ends;
use crate::remote::Remote;
use lt_frames::{Wire, WriteError, write_frame};
use lt_live::Station;

impl Remote {
    /// Puts the frames of the next letters for a node at the end of the bytes, up to so many, and answers how many
    /// these are.
    ///
    /// These letters count as given out: all their bytes are to be carried to the node, in this order. A frame that
    /// finds no memory is put there later; where it is the first one, this is told.
    pub fn take_out(&mut self, to: u8, most: u32, out: &mut Vec<u8>) -> Result<u32, WriteError>
        requires peer { to < nodes self.old }
        ensures gives { IfOk result (λ count. GivesOut self.old.key (wire_to self.old to) count (given self.old to)
            (given self.new to) out.old.items out.new.items) }
        ensures most { IfOk result (λ count. count ≤ most) }
        ensures none { result ≡ Ok 0 → 0 < most → HasGivenAll to self.new.station.runner self.new.far }
        ensures error { OnErr result ((given self.new to ≡ given self.old to) × (out.new.items ≡ out.old.items)) }
        ensures long { result ≡ Err errors.TooLong → NextIsTooLong to self.new.station.runner self.new.far }
        ensures only { OnlyGives to self.old.station self.new.station self.old.far self.new.far }
        ensures same { (self.new.service ≡ self.old.service) × (self.new.key ≡ self.old.key) }
    {
        let wire = Wire {
            service: self.service,
            from: self.station.node(),
            to,
        };
        give_letters(
            &mut self.station,
            &mut self.ends,
            &self.key,
            wire,
            most,
            out,
        )
    }

    /// Whether a letter for a node waits to be given out.
    #[tactic(auto, using(crate::proofs::GivenOut::pending_is))]
    pub fn pending(&mut self, to: u8) -> bool
        requires peer { to < nodes self.old }
        ensures value { MatchBool result (length (given self.new to) < length
            (sent_to self.new.station.runner.mail to)) (sent_to self.new.station.runner.mail to ≡ given self.new to) }
        ensures only { OnlyGives to self.old.station self.new.station self.old.far self.new.far }
        ensures same { CarriesNone self.old self.new }
    {
        self.station.meet_taker(&mut self.ends.far, to);
        self.ends.far.knows_letter(to)
    }
}

fn give_letters(
    station: &mut Station,
    ends: &mut Ends,
    key: &[u8],
    wire: Wire,
    most: u32,
    out: &mut Vec<u8>,
) -> Result<u32, WriteError>
    requires far { HasFarEnds station.old.runner ends.old.far ends.old.given.items ends.old.brought.items }
    requires peer { wire.to < station.old.runner.node.script.nodes }
    ensures far { HasFarEnds station.new.runner ends.new.far ends.new.given.items ends.new.brought.items }
    ensures gives { IfOk result (λ count. GivesOut key.now wire count (taken_from ends.old.far wire.to)
        (taken_from ends.new.far wire.to) out.old.items out.new.items) }
    ensures most { IfOk result (λ count. count ≤ most) }
    ensures none { result ≡ Ok 0 → 0 < most → HasGivenAll wire.to station.new.runner ends.new.far }
    ensures error { OnErr result ((taken_from ends.new.far wire.to ≡ taken_from ends.old.far wire.to)
        × (out.new.items ≡ out.old.items)) }
    ensures long { result ≡ Err errors.TooLong → NextIsTooLong wire.to station.new.runner ends.new.far }
    ensures only { OnlyGives wire.to station.old station.new ends.old.far ends.new.far }
{
    let mut count = 0;
    while count < most {
        match give_next(station, ends, key, wire, out) {
            Ok(true) => count += 1,
            Ok(false) => return Ok(count),
            Err(error) if count == 0 => return Err(error),
            Err(_) => return Ok(count),
        }
    }
    Ok(count)
}

// The frame of the next letter, where one waits.
fn give_next(
    station: &mut Station,
    ends: &mut Ends,
    key: &[u8],
    wire: Wire,
    out: &mut Vec<u8>,
) -> Result<bool, WriteError>
    requires far { HasFarEnds station.old.runner ends.old.far ends.old.given.items ends.old.brought.items }
    requires peer { wire.to < station.old.runner.node.script.nodes }
    ensures far { HasFarEnds station.new.runner ends.new.far ends.new.given.items ends.new.brought.items }
    ensures gives { IfOk result (λ one. GivesOut key.now wire (gave one) (taken_from ends.old.far wire.to)
        (taken_from ends.new.far wire.to) out.old.items out.new.items) }
    ensures none { result ≡ Ok false → HasGivenAll wire.to station.new.runner ends.new.far }
    ensures error { OnErr result ((taken_from ends.new.far wire.to ≡ taken_from ends.old.far wire.to)
        × (out.new.items ≡ out.old.items)) }
    ensures long { result ≡ Err errors.TooLong → NextIsTooLong wire.to station.new.runner ends.new.far }
    ensures only { OnlyGives wire.to station.old station.new ends.old.far ends.new.far }
{
    station.meet_taker(&mut ends.far, wire.to);
    let number = ends.given[usize::from(wire.to)];
    if number == u64::MAX {
        return Ok(false);
    }
    match ends.far.first_known(wire.to) {
        None => return Ok(false),
        Some(letter) => match write_frame(out, key, wire, number, letter) {
            Ok(()) => {}
            Err(error) => return Err(error),
        },
    }
    let _ = ends.far.take_next(wire.to);
    ends.given[usize::from(wire.to)] = number + 1;
    Ok(true)
}
