// What clients are told.
ghost use Rattle.std.specs.Prelude.{◌≡◌, ◌==◌, Some, None, if◌then◌else◌};
ghost use Rattle.lt_live.specs.Seats.{reply_to, told_if};

use lt_modes::Event;

/// What a client is told of one of its commands. While it waits it is told nothing.
#[derive(Clone, Copy, Debug, PartialEq, Eq)]
pub enum Reply {
    /// It has the lock that it asked for.
    Granted,
    /// It tried, and has the lock; or it gave up what a client waited for.
    True,
    /// It tried, and has no lock; or there was nothing to give up.
    False,
    Unlocked,
    /// It didn't hold the mode that it gives up.
    NotHeld,
    Changed,
    /// So many locks were dropped.
    Dropped(u64),
    /// The client whose locks it wanted to drop waits, so none was dropped.
    Busy,
    /// The lock or change that it waited for was given up. It holds what it held.
    Withdrawn,
    /// It can't ask for this lock or change yet, since what it gave up is still unanswered in the set.
    Withheld,
}

// The reply, where it is this client's.
fn told_if(client: u16, other: u16, reply: Reply) -> Option<Reply>
    ensures { result ≡ told_if client other reply }
{
    if other == client { Some(reply) } else { None }
}

/// What the line says to the client, where it is a reply to it.
pub fn reply_to(client: u16, line: Event) -> Option<Reply>
    ensures { result ≡ reply_to client line }
{
    match line {
        Event::Grant { client: other, .. } => told_if(client, other, Reply::Granted),
        Event::Try {
            client: other,
            got: true,
            ..
        } => told_if(client, other, Reply::True),
        Event::Try {
            client: other,
            got: false,
            ..
        } => told_if(client, other, Reply::False),
        Event::Unlock { client: other, .. } => told_if(client, other, Reply::Unlocked),
        Event::NotHeld { client: other, .. } => told_if(client, other, Reply::NotHeld),
        Event::Change { client: other, .. } => told_if(client, other, Reply::Changed),
        Event::DropAll {
            client: other,
            count,
            ..
        } => told_if(client, other, Reply::Dropped(count)),
        Event::Busy { client: other, .. } => told_if(client, other, Reply::Busy),
        Event::Withdraw {
            client: other,
            got: true,
            ..
        } => told_if(client, other, Reply::True),
        Event::Withdraw {
            client: other,
            got: false,
            ..
        } => told_if(client, other, Reply::False),
        Event::Withdrawn { client: other, .. } => told_if(client, other, Reply::Withdrawn),
        Event::Withheld { client: other, .. } => told_if(client, other, Reply::Withheld),
        Event::Wait { .. }
        | Event::Void { .. }
        | Event::Copy { .. }
        | Event::Freeze { .. }
        | Event::Token { .. } => None,
    }
}
