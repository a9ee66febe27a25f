use crate::status::Status;
use lt_live::Reply;
use lt_merge::Run;
use lt_spec::Ending;

/// What came of it: the status, the run that was made, and the replies that the sessions polled, in order of clients, each with
/// its client.
#[derive(Drop)]
pub struct Served {
    pub status: Status,
    pub run: Run,
    pub polled: Vec<(u16, Reply)>,
}

/// What came of a script before anything is written.
#[derive(Drop)]
pub(crate) struct Made {
    pub(crate) ending: Ending,
    pub(crate) run: Run,
    pub(crate) polled: Vec<(u16, Reply)>,
    pub(crate) text: Vec<u8>,
}
