// The locks that a client may hold, through what a command does.
ghost use Rattle.std.specs.Prelude.{◌≡◌, ◌<◌, ◌++◌, ◌∷◌, [], filter, length, not, position, IfOk, IfSome, IsTrue, OnOk};
ghost use Rattle.lt_spec.specs.Holdings.{same_holding, without_one, is_dropped};
ghost use Rattle.lt_spec.specs.Ordered.{are_below, keeps_order, may_hold_after};

use crate::lock::Lock;
use lt_modes::{Command, Mode};
use lt_script::Script;
use std::alloc::AllocError;

/// Whether the client's command keeps the order. If so, the command is made: the locks are those that the client may
/// hold after it.
pub(crate) fn make(
    locks: &mut Vec<Lock>,
    script: &Script,
    client: u16,
    command: Command,
) -> Result<bool, AllocError>
    ensures keeps { IfOk result (λ keeps. keeps ≡ keeps_order client locks.old.items command) }
    ensures made { IfOk result (λ keeps.
        IsTrue keeps → locks.new.items ≡ may_hold_after script.now client locks.old.items command) }
{
    match command {
        Command::Lock { set, mode } | Command::Try { set, mode } => {
            let rises = are_below(locks, set);
            if rises {
                add(locks, Lock::new(client, set, mode))?;
            }
            Ok(rises)
        }
        Command::Unlock { set, mode } => {
            take(locks, &Lock::new(client, set, mode));
            Ok(true)
        }
        Command::Change { .. } => Ok(false),
        Command::DropAll { client: other, set } => {
            drop_family(locks, script, other, set);
            Ok(other == client)
        }
        Command::Withdraw { .. } => Ok(true),
    }
}

// Whether each lock is of a set with a smaller number.
fn are_below(locks: &[Lock], set: u32) -> bool
    ensures { result ≡ are_below set locks.now }
{
    locks.iter().all(|lock| lock.is_below(set))
}

fn add(locks: &mut Vec<Lock>, lock: Lock) -> Result<(), AllocError>
    ensures { OnOk result (locks.new.items ≡ locks.old.items ++ lock ∷ []) }
{
    locks.push(lock)?;
    Ok(())
}

// Takes one such lock away, where there is one.
fn take(locks: &mut Vec<Lock>, lock: &Lock)
    ensures { locks.new.items ≡ without_one locks.old.items lock.now }
{
    if let Some(place) = place_of(locks, lock) {
        locks.remove(place);
    }
}

// The place of the first such lock.
fn place_of(locks: &[Lock], lock: &Lock) -> Option<usize>
    ensures place { result ≡ position (same_holding lock.now) locks.now }
    ensures inside { IfSome result (λ place. place < length locks.now) }
{
    locks.iter().position(|held| held.is_same(lock))
}

// Drops the client's locks of the set's family.
fn drop_family(locks: &mut Vec<Lock>, script: &Script, client: u16, set: u32)
    ensures { locks.new.items ≡ filter (λ lock. not (is_dropped script.now client set lock)) locks.old.items }
{
    locks.retain(|lock| !lock.is_dropped(script, client, set));
}
