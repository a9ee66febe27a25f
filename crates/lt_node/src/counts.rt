// In how many sets each client waits: a number for each client.
ghost use Rattle.std.specs.Prelude.{◌≡◌, ◌≤◌, ◌<◌, ◌+◌, ◌&&◌, ℕ, IfOk, length, not, replicate, slice_index_or, take, if◌then◌else◌, ◌==◌};
ghost use Rattle.std.specs.List.{list_any};
ghost use Rattle.lt_modes.specs.Fits.{has_client};
ghost use Rattle.lt_modes.specs.State.{no_ask};
ghost use Rattle.lt_spec.specs.declared.limits.TheConstants.{MAX_SETS_OF_SERVICE};
ghost use Rattle.lt_node.specs.Sets.{WaitLess, WaitMore, asks_of};

use lt_modes::Ask;
use std::alloc::{AllocError, Global};

/// So many zeros.
pub(crate) fn zeros(alloc: Global, count: usize) -> Result<Vec<u32>, AllocError>
    ensures { IfOk result (λ zeros. zeros.items ≡ replicate count 0) }
{
    let mut zeros = Vec::new(alloc);
    zeros.resize(count, 0)?;
    Ok(zeros)
}

/// The clients whose asks these are, and which didn't give them up, wait in one set less.
pub(crate) fn wait_less(counts: &mut Vec<u32>, asks: &[Ask], gone: &[u16])
    requires { (client : ℕ) → client < length counts.old.items
        → asks_of asks.now gone.now client ≤ slice_index_or counts.old.items client 0 }
    ensures { WaitLess asks.now gone.now counts.old.items counts.new.items }
{
    for k in 0..asks.len() {
        if waits_first(asks, gone, k) {
            count_less(counts, asks[k].client);
        }
    }
}

/// The clients whose asks these are, and which didn't give them up, wait in one set more.
pub(crate) fn wait_more(counts: &mut Vec<u32>, asks: &[Ask], gone: &[u16])
    requires { (client : ℕ) → slice_index_or counts.old.items client 0 ≤ MAX_SETS_OF_SERVICE }
    ensures { WaitMore asks.now gone.now counts.old.items counts.new.items }
{
    for k in 0..asks.len() {
        if waits_first(asks, gone, k) {
            count_more(counts, asks[k].client);
        }
    }
}

// Whether the ask at this place wasn't given up, and none before it is of its client.
fn waits_first(asks: &[Ask], gone: &[u16], k: usize) -> bool
    requires { k < length asks.now }
    ensures { result ≡ (not (has_client (slice_index_or asks.now k no_ask).client (take k asks.now))
        && not (list_any (λ other. other == (slice_index_or asks.now k no_ask).client) gone.now)) }
{
    is_first(asks, k) && !is_gone(gone, asks[k].client)
}

// Whether the client is among these.
#[inline(always)]
fn is_gone(gone: &[u16], client: u16) -> bool
    ensures { result ≡ list_any (λ other. other == client) gone.now }
{
    !gone.is_empty() && finds(gone, client)
}

// The same where they aren't none.
#[inline(never)]
fn finds(gone: &[u16], client: u16) -> bool
    ensures { result ≡ list_any (λ other. other == client) gone.now }
{
    gone.iter().any(|other| *other == client)
}

// Whether no ask before this place is of the client of the one there.
fn is_first(asks: &[Ask], k: usize) -> bool
    requires { k < length asks.now }
    ensures { result ≡ not (has_client (slice_index_or asks.now k no_ask).client (take k asks.now)) }
{
    let client = asks[k].client;
    for j in 0..k {
        if asks[j].client == client {
            return false;
        }
    }
    true
}

// The same for one client, where it has a number.
fn count_less(counts: &mut Vec<u32>, client: u16)
    requires { client < length counts.old.items → 0 < slice_index_or counts.old.items client 0 }
    ensures count { length counts.new.items ≡ length counts.old.items }
    ensures each { (other : ℕ) → other < length counts.old.items
        → slice_index_or counts.new.items other 0 + (if client == other then 1 else 0)
        ≡ slice_index_or counts.old.items other 0 }
{
    let client = usize::from(client);
    if client < counts.len() {
        counts[client] -= 1;
    }
}

fn count_more(counts: &mut Vec<u32>, client: u16)
    requires { slice_index_or counts.old.items client 0 ≤ MAX_SETS_OF_SERVICE }
    ensures count { length counts.new.items ≡ length counts.old.items }
    ensures each { (other : ℕ) → other < length counts.old.items
        → slice_index_or counts.new.items other 0
        ≡ slice_index_or counts.old.items other 0 + (if client == other then 1 else 0) }
{
    let client = usize::from(client);
    if client < counts.len() {
        counts[client] += 1;
    }
}
