use lt_desk::Letter;

/// A move for which room was made: a command of a client, or a letter of a sender that is in hand.
#[derive(Drop)]
pub(crate) enum Reserved {
    Acting { client: u16 },
    Taking { sender: u8, letter: Letter },
}
