// New sessions.
ghost use Rattle.std.specs.Prelude.{◌≡◌, ◌<◌, [], length, IfOk};
ghost use Rattle.rtrb.specs.Ring.{producer_capacity};
ghost use Rattle.lt_live.specs.Words.{submitted, polled, known_replies, places, known_commands, outbox_replies, AreTwoEnds};
ghost use Rattle.lt_live.specs.Seats.{IsSeat};

use crate::ends::{Seat, Session};
use lt_script::Script;
use rtrb::RingBuffer;
use std::alloc::{AllocError, Global};
use std::collections::VecDeque;

/// The two ends of a new session, with rings of so many places; the seat is at this place among those of its station.
pub(crate) fn new_session(
    alloc: Global,
    script: &Script,
    client: u16,
    place: usize,
    share: u64,
    capacity: u32,
) -> Result<(Session, Seat), AllocError>
    requires { client < length script.now.clients }
    ensures link { IfOk result (λ ends. AreTwoEnds ends.0 ends.1) }
    ensures session { IfOk result (λ ends. (ends.0.script ≡ script.now) × (ends.0.client ≡ client) × (ends.0.place ≡ place) × (ends.0.left ≡ share) × (ends.0.share ≡ share)) }
    ensures fresh { IfOk result (λ ends. (submitted ends.0 ≡ []) × (polled ends.0 ≡ []) × (known_replies ends.0 ≡ [])) }
    ensures empty { IfOk result (λ ends. (known_commands ends.1 ≡ []) × (outbox_replies ends.1 ≡ [])) }
    ensures seat { IfOk result (λ ends. IsSeat [] [] client ends.1) }
    ensures places { IfOk result (λ ends. (places ends.0 ≡ capacity) × (producer_capacity ends.1.replies ≡ capacity)) }
{
    let (sender, taker) = RingBuffer::new(alloc, capacity as usize)?;
    let (teller, hearer) = RingBuffer::new(alloc, capacity as usize)?;
    let script = script.copy(alloc)?;
    let session = Session {
        script,
        client,
        place,
        share,
        left: share,
        answered: 0,
        commands: sender,
        replies: hearer,
    };
    let seat = Seat {
        client,
        commands: taker,
        hand: None,
        replies: teller,
        waiting: VecDeque::new(alloc),
        moves: 0,
        lines: 0,
    };
    Ok((session, seat))
}
