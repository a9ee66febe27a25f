ghost use Rattle.std.specs.Prelude.{◌≡◌, ◌<◌, nat_le, length, IfSome};
ghost use Rattle.lt_modes.specs.Modes.{row_place, held_modes, own_modes, other_modes, locks_of, locks_in};
ghost use Rattle.lt_held.specs.HeldData.{AreRows};

use lt_modes::{Mode, ModeSet, Row};

/// The place of the client's row of this mode.
pub(crate) fn place(rows: &[Row], client: u16, mode: Mode) -> Option<usize>
    ensures place { result ≡ row_place rows.now client mode }
    ensures within { IfSome result (λ k. k < length rows.now) }
{
    rows.iter()
        .position(|row| row.client == client && row.mode == mode)
}

/// The modes that are held.
pub(crate) fn modes(rows: &[Row]) -> ModeSet
    ensures { result ≡ held_modes rows.now }
{
    rows.iter()
        .fold(ModeSet::empty(), |modes, row| modes.with(row.mode))
}

/// The modes that the client holds.
pub(crate) fn own_modes(rows: &[Row], client: u16) -> ModeSet
    ensures { result ≡ own_modes rows.now client }
{
    rows.iter().fold(ModeSet::empty(), |modes, row| {
        if row.client == client {
            modes.with(row.mode)
        } else {
            modes
        }
    })
}

/// The modes that other clients hold.
pub(crate) fn other_modes(rows: &[Row], client: u16) -> ModeSet
    ensures { result ≡ other_modes rows.now client }
{
    rows.iter().fold(ModeSet::empty(), |modes, row| {
        if row.client != client {
            modes.with(row.mode)
        } else {
            modes
        }
    })
}

/// How many locks the client holds.
#[tactic(auto, using(crate::proofs::RowLemmas::few_locks, crate::proofs::RowLemmas::locks_more))]
pub(crate) fn locks(rows: &[Row], client: u16) -> u64
    requires { AreRows rows.now }
    ensures { result ≡ locks_of rows.now client }
{
    let mut locks = 0;
    for row in rows {
        if row.client == client {
            locks += row.count;
        }
    }
    locks
}

/// Whether no more locks than that are held.
pub(crate) fn hold_at_most(rows: &[Row], locks: u64) -> bool
    ensures { result ≡ nat_le (locks_in rows.now) locks }
{
    let mut left = locks;
    for row in rows {
        if row.count > left {
            return false;
        }
        left -= row.count;
    }
    true
}
