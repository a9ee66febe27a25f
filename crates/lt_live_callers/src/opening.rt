// Stations, and a desk for each caller.
ghost use Rattle.std.specs.Prelude.{◌≡◌, ◌≢◌, ◌↔◌, ◌≤◌, ◌<◌, [], length, Err, IfOk, OnOk};
ghost use Rattle.lt_spec.specs.declared.moves.TheConstants.{MAX_MOVES};
ghost use Rattle.lt_spec.specs.declared.limits.TheConstants.{MAX_COMMANDS};
ghost use Rattle.lt_live_callers.specs.declared.error.CallersError.TheVariants as errors;
ghost use Rattle.lt_live_callers.specs.Served.{AreDesks, AreServing, IsNoLimit, WereOpened};

use crate::caller::Caller;
use crate::desk::Desk;
use crate::error::CallersError;
use lt_live::{Session, Station, equal_share, law_live_lasts, open};
use lt_script::Script;
use lt_spec::MAX_MOVES;
use std::alloc::{AllocError, Global};

/// Whether there is a caller for each client and, if so, whether a node may make so many moves.
pub(crate) fn may_begin(script: &Script, callers: usize, limit: u32) -> Result<(), CallersError>
    ensures ok { OnOk result ((callers ≡ length script.now.clients) × (0 < limit) × (limit ≤ MAX_MOVES)) }
    ensures count { (result ≡ Err errors.Count) ↔ (callers ≢ length script.now.clients) }
    ensures limit { (result ≡ Err errors.Limit) ↔ ((callers ≡ length script.now.clients) × IsNoLimit limit) }
{
    if callers != usize::from(script.clients()) {
        return Err(CallersError::Count);
    }
    if limit == 0 || limit > MAX_MOVES {
        return Err(CallersError::Limit);
    }
    Ok(())
}

/// The stations of the script, whose nodes make up to `limit` moves each, and a desk for each client, with its caller.
pub(crate) fn begin<C: Caller + Drop>(
    alloc: Global,
    script: &Script,
    callers: Vec<C>,
    limit: u32,
) -> Result<(Vec<Station>, Vec<Desk<C>>), AllocError>
    requires commands { script.now.commands ≡ [] }
    requires count { length callers.items ≡ length script.now.clients }
    requires limit { (0 < limit) × (limit ≤ MAX_MOVES) }
    ensures opened { IfOk result (λ begun. WereOpened script.now limit begun.0.items) }
    ensures serving { IfOk result (λ begun.
        AreServing C.goes 0 script.now limit callers.items begun.0.items begun.1.items) }
{
    law_live_lasts();
    let moves = u64::from(limit);
    let share = equal_share(script);
    let most = u64::from(share);
    let (stations, sessions) = open(alloc, script, moves, places_for(share), most)?;
    let desks = desks_of(alloc, callers, sessions)?;
    Ok((stations, desks))
}

// How many places the ring of a session has: one for each command that it may submit, and one at least.
fn places_for(share: u32) -> u32
    requires { share ≤ MAX_COMMANDS }
    ensures some { (0 < result) × (result ≤ MAX_COMMANDS) }
    ensures roomy { share ≤ result }
{
    share.max(1)
}

// A desk for each caller, with the session at its place.
#[tactic(auto, using(crate::proofs::Made::are_desks, crate::proofs::Made::one_more))]
fn desks_of<C: Drop>(
    alloc: Global,
    mut callers: Vec<C>,
    mut sessions: Vec<Session>,
) -> Result<Vec<Desk<C>>, AllocError>
    requires { length callers.items ≡ length sessions.items }
    ensures { IfOk result (λ desks. AreDesks callers.items sessions.items desks.items) }
{
    let mut desks = Vec::new(alloc);
    while !sessions.is_empty() {
        let caller = callers.remove(0);
        let session = sessions.remove(0);
        desks.push(Desk {
            caller,
            session,
            refused: None,
            done: false,
        })?;
    }
    Ok(desks)
}
