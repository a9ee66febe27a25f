use lt_desk::{Letter, Out};
use lt_log::LongLog;
use lt_mail::Mail;
use lt_node::Node;

/// What a runner has.
#[derive(Drop)]
pub struct Parts {
    pub(crate) node: Node,
    pub(crate) mail: Mail,
    pub(crate) log: LongLog,
    // What a move sends out, on its way into the mail and the log; nothing between moves.
    pub(crate) out: Out,
    // The letter that is taken next.
    pub(crate) hand: Option<Hand>,
    // How many moves there may be in the log.
    pub(crate) limit: u64,
    // The nodes that letters went to since this was last asked, bit q % 64 for node q.
    pub(crate) reached: u64,
    // The nodes, bit q for node q, whose rings are looked at for a letter after the one in which letters may be known.
    // Where letters may be known in several, all rings are.
    pub(crate) senders: u64,
    // No client can act, as was found when one was last looked for.
    pub(crate) idle: bool,
}

/// A letter that was taken from a ring, with the node that sent it.
#[derive(Drop)]
pub struct Hand {
    pub(crate) from: u8,
    pub(crate) letter: Letter,
}
