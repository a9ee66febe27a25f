ghost use Rattle.std.specs.Prelude.{◌≡◌, ◌<◌, ◌++◌, ◌∷◌, [], not, fold, filter, length, position, IfOk, OnOk, IfSome};
ghost use Rattle.lt_spec.specs.Holdings.{Holding as AnyHolding, holding, after_line, without_one, same_holding, is_dropped, holdings, lines_of};

use crate::families::is_related;
use crate::holding::Holding;
use lt_merge::Run;
use lt_modes::{Event, Mode};
use lt_script::Script;
use std::alloc::{AllocError, Global};

/// The locks that are held after a run.
pub(crate) fn locks_held(
    alloc: Global,
    script: &Script,
    run: &Run,
) -> Result<Vec<Holding>, AllocError>
    ensures { IfOk result (λ locks. locks.items ≡ holdings script.now (lines_of run.now.entries)) }
{
    let mut held = Vec::new(alloc);
    for k in 0..run.len() {
        apply_all(&mut held, script, run.events(k))?;
    }
    Ok(held)
}

// What is held after these events.
fn apply_all(held: &mut Vec<Holding>, script: &Script, events: &[Event]) -> Result<(), AllocError>
    ensures { OnOk result (held.new.items ≡ fold (after_line script.now) held.old.items events.now) }
{
    for event in events {
        apply(held, script, *event)?;
    }
    Ok(())
}

// What is held after one event more.
fn apply(held: &mut Vec<Holding>, script: &Script, event: Event) -> Result<(), AllocError>
    ensures { OnOk result (held.new.items ≡ after_line script.now held.old.items event) }
{
    match event {
        Event::Grant { client, set, mode } => held.push(Holding { client, set, mode })?,
        Event::Try {
            client,
            set,
            mode,
            got,
        } => {
            if got {
                held.push(Holding { client, set, mode })?;
            }
        }
        Event::Unlock { client, set, mode } => give_up(held, Holding { client, set, mode }),
        Event::Change {
            client,
            set,
            gives_up,
            mode,
        } => change(held, client, set, gives_up, mode)?,
        Event::DropAll { other, set, .. } => drop_all(held, script, other, set),
        Event::Wait { .. }
        | Event::NotHeld { .. }
        | Event::Busy { .. }
        | Event::Withdraw { .. }
        | Event::Withdrawn { .. }
        | Event::Void { .. }
        | Event::Withheld { .. }
        | Event::Copy { .. }
        | Event::Freeze { .. }
        | Event::Token { .. } => {}
    }
    Ok(())
}

// One lock less of the first mode, and one more of the second.
fn change(
    held: &mut Vec<Holding>,
    client: u16,
    set: u32,
    gives_up: Mode,
    mode: Mode,
) -> Result<(), AllocError>
    ensures { OnOk result (held.new.items ≡ without_one held.old.items (holding client set gives_up) ++ holding client set mode ∷ []) }
{
    let old = Holding {
        client,
        set,
        mode: gives_up,
    };
    give_up(held, old);
    held.push(Holding { client, set, mode })?;
    Ok(())
}

// One such lock less, where there is one.
fn give_up(held: &mut Vec<Holding>, lock: Holding)
    ensures { held.new.items ≡ without_one held.old.items lock }
{
    if let Some(k) = place_of(held, lock) {
        held.remove(k);
    }
}

// The place of the first such lock.
fn place_of(held: &[Holding], lock: Holding) -> Option<usize>
    ensures place { result ≡ position (same_holding lock) held.now }
    ensures within { IfSome result (λ k. k < length held.now) }
{
    held.iter().position(|other| {
        lock.client == other.client && lock.set == other.set && lock.mode == other.mode
    })
}

// The locks but those of the client in the family of the set.
fn drop_all(held: &mut Vec<Holding>, script: &Script, client: u16, set: u32)
    ensures { held.new.items ≡ filter (λ (lock : AnyHolding). not (is_dropped script.now client set lock)) held.old.items }
{
    held.retain(|lock| !is_dropped(script, client, set, *lock));
}

// Whether the lock is one of the client in the family of the set.
fn is_dropped(script: &Script, client: u16, set: u32, lock: Holding) -> bool
    ensures { result ≡ is_dropped script.now client set lock }
{
    lock.client == client && is_related(script, lock.set, set)
}
