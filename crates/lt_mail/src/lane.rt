ghost use Rattle.std.specs.Prelude.{◌+◌, ◌≤◌, length};
ghost use Rattle.rtrb.specs.Ring.{sent, known_free, producer_capacity};

use lt_desk::Letter;
use rtrb::{Consumer, Producer};

/// The sending end of a ring.
#[derive(Drop)]
pub struct OutEnd {
    pub(crate) ring: Producer<Letter>,
    // So many letters at least have found or will find a place.
    pub(crate) ghost roomy: { producer_capacity ring ≤ known_free ring + length (sent ring) },
}

/// The taking end of a ring.
#[derive(Drop)]
pub struct InLane {
    pub(crate) ring: Consumer<Letter>,
}
