ghost use Rattle.std.specs.Prelude.{◌≡◌, ◌<◌};
ghost use Rattle.lt_counts.specs.Counting.{place_among, counted_as, try_counted};

use lt_modes::Event;

/// What lines of a set are counted. Letters that ask for a lock or answer an ask have no lines, so those alone are
/// counted that do: copies of asks, freezes and tokens, each by the node that sends it.
#[derive(Clone, Copy, Debug, PartialEq, Eq)]
pub enum Counted {
    /// A lock was granted: at once, after a wait, or to a `try`.
    Grants,
    /// A lock became one of another mode.
    Changes,
    /// A `try` got nothing.
    Refusals,
    /// A client began to wait.
    Waits,
    /// A client gave up what it waited for.
    Withdrawals,
    Copies,
    Freezes,
    Tokens,
}

impl Counted {
    /// Its place among the numbers of a set.
    pub fn place(self) -> usize
        ensures place { result ≡ place_among self }
        ensures inside { result < 8 }
    {
        match self {
            Counted::Grants => 0,
            Counted::Changes => 1,
            Counted::Refusals => 2,
            Counted::Waits => 3,
            Counted::Withdrawals => 4,
            Counted::Copies => 5,
            Counted::Freezes => 6,
            Counted::Tokens => 7,
        }
    }
}

/// The set of the line, and what it is counted as, if it is.
pub fn counted_as(line: Event) -> Option<(u32, Counted)>
    ensures { result ≡ counted_as line }
{
    match line {
        Event::Grant { set, .. } => Some((set, Counted::Grants)),
        Event::Try { set, got, .. } => Some((set, try_counted(got))),
        Event::Change { set, .. } => Some((set, Counted::Changes)),
        Event::Wait { set, .. } => Some((set, Counted::Waits)),
        Event::Withdrawn { set, .. } => Some((set, Counted::Withdrawals)),
        Event::Copy { set, .. } => Some((set, Counted::Copies)),
        Event::Freeze { set, .. } => Some((set, Counted::Freezes)),
        Event::Token { set, .. } => Some((set, Counted::Tokens)),
        _ => None,
    }
}

fn try_counted(got: bool) -> Counted
    ensures { result ≡ try_counted got }
{
    if got {
        Counted::Grants
    } else {
        Counted::Refusals
    }
}
