ghost use Rattle.std.specs.Prelude.{◌≡◌, ◌↔◌, ◌<◌, length, IsTrue, IsFalse, IfOk, IfSome};
ghost use Rattle.lt_spec.specs.Ordered.{is_orderly, IsOrdered, first_bad};

use crate::locks::make;
use lt_script::Script;
use std::alloc::{AllocError, Global};

/// Whether the script is ordered: each of its clients asks for sets in rising order, changes no mode, drops only its
/// own locks, and releases all that it may hold.
pub fn ordered(alloc: Global, script: &Script) -> Result<bool, AllocError>
    ensures { IfOk result (λ told. IsTrue told ↔ IsOrdered script.now) }
{
    let bad = first_bad(alloc, script)?;
    Ok(bad.is_none())
}

/// The first client that isn't in order, if one isn't.
pub fn first_bad(alloc: Global, script: &Script) -> Result<Option<u16>, AllocError>
    ensures first { IfOk result (λ bad. bad ≡ first_bad script.now) }
    ensures named { IfOk result (λ bad. IfSome bad
        (λ client. (client < length script.now.clients) × IsFalse (is_orderly script.now client))) }
{
    for client in 0..script.clients() {
        if !is_orderly(alloc, script, client)? {
            return Ok(Some(client));
        }
    }
    Ok(None)
}

// Whether the client is in order.
fn is_orderly(alloc: Global, script: &Script, client: u16) -> Result<bool, AllocError>
    ensures { IfOk result (λ told. told ≡ is_orderly script.now client) }
{
    let mut locks = Vec::new(alloc);
    for request in script.requests() {
        if request.0 == client && !make(&mut locks, script, client, request.1)? {
            return Ok(false);
        }
    }
    Ok(locks.is_empty())
}
