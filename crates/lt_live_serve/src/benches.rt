use lt_live::Seat;

/// The seats of one station, while its runner is elsewhere.
#[derive(Drop)]
pub(crate) struct Bench {
    pub(crate) seats: Vec<Seat>,
}
