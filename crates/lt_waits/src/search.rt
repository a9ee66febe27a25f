// The search for those from whom clients wait in a row to one client, in rounds: first those that wait for it, then
// those that wait for one of these, and so on.
ghost use Rattle.std.specs.Prelude.{◌≡◌, ◌<◌, ◌≤◌, ◌∷◌, [], ℕ, All, IfOk, OnOk, length};
ghost use Rattle.lt_waits.specs.Serves.{graph_of};
ghost use Rattle.lt_waits.specs.Search.{HasSteps, IsSearched, IsSearch, Reaches, next_step_of, steps_of};

use crate::bits::Bits;
use crate::waiters::Waiters;
use std::alloc::{AllocError, Global};

/// What is found of each client.
#[derive(Drop)]
pub(crate) struct Search {
    // In how many steps it comes to the goal; 0 as long as it isn't found.
    steps: Vec<u32>,
    // Where its first step goes.
    next: Vec<u16>,
    // Those that aren't found yet.
    left: Bits,
}

impl Search {
    /// In how many steps the client comes to the goal; 0 if it doesn't.
    pub fn steps(&self, client: u16) -> u32
        requires { client < length self.now.steps.items }
        ensures { result ≡ steps_of self.now client }
    {
        self.steps[usize::from(client)]
    }

    /// Where the client's first step goes.
    pub fn next(&self, client: u16) -> u16
        requires { client < length self.now.next.items }
        ensures { result ≡ next_step_of self.now client }
    {
        self.next[usize::from(client)]
    }
}

/// Of each client the fewest steps to the goal, each from a client to one for which it waits.
pub(crate) fn steps_to(
    alloc: Global,
    waiters: &Waiters<'_>,
    goal: u16,
) -> Result<Search, AllocError>
    requires { goal < waiters.now.clients }
    ensures { IfOk result (λ search. HasSteps waiters.now.clients (graph_of waiters.now) goal search) }
{
    let mut search = none_found(alloc, waiters.clients())?;
    let mut layer = reach(alloc, &mut search, waiters, &[goal], 1)?;
    let mut steps = 1;
    while !layer.is_empty() {
        steps += 1;
        layer = reach(alloc, &mut search, waiters, &layer, steps)?;
    }
    Ok(search)
}

// No client is found.
fn none_found(alloc: Global, clients: u16) -> Result<Search, AllocError>
    ensures search { IfOk result (λ search. IsSearch clients search) }
    ensures none { IfOk result (λ search. (client : ℕ) → client < clients → steps_of search client ≡ 0) }
{
    Ok(Search {
        steps: vec![in alloc; 0; usize::from(clients)]?,
        next: vec![in alloc; 0; usize::from(clients)]?,
        left: Bits::all(alloc, clients)?,
    })
}

// Finds those left that wait for one of those, each in so many steps.
fn reach(
    alloc: Global,
    search: &mut Search,
    waiters: &Waiters<'_>,
    those: &[u16],
    steps: u32,
) -> Result<Vec<u16>, AllocError>
    requires search { IsSearch waiters.now.clients search.old }
    requires those { All (λ c. c < waiters.now.clients) those.now }
    requires steps { 0 < steps }
    ensures reached { IfOk result
        (λ found. Reaches waiters.now.clients
        (graph_of waiters.now) those.now steps [] found.items search.old search.new) }
    ensures done { OnOk result (IsSearched waiters.now.clients (graph_of waiters.now) those.now search.new) }
{
    let mut found = Vec::new(alloc);
    for client in those {
        reach_one(search, waiters, *client, steps, &mut found)?;
    }
    Ok(found)
}

// Finds those left that wait for the client.
fn reach_one(
    search: &mut Search,
    waiters: &Waiters<'_>,
    client: u16,
    steps: u32,
    found: &mut Vec<u16>,
) -> Result<(), AllocError>
    requires search { IsSearch waiters.now.clients search.old }
    requires client { client < waiters.now.clients }
    requires steps { 0 < steps }
    ensures reached { OnOk result
        (Reaches waiters.now.clients (graph_of waiters.now) (client
        ∷ []) steps found.old.items found.new.items search.old search.new) }
    ensures done { OnOk result (IsSearched waiters.now.clients (graph_of waiters.now) (client ∷ []) search.new) }
{
    while let Some(other) = waiters.one_of(&search.left, client) {
        search.left.remove(other);
        search.steps[usize::from(other)] = steps;
        search.next[usize::from(other)] = client;
        found.push(other)?;
    }
    Ok(())
}
