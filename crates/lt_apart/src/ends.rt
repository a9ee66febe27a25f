// The far ends of a node's rings, and how many letters went through them.
ghost use Rattle.std.specs.Prelude.{◌≡◌, [], IfOk};
ghost use Rattle.lt_apart.specs.Remote.{AreCounts};

use lt_mail::Mail;
use std::alloc::{AllocError, Global};

/// The far ends of a node's rings, at the places of the other nodes, and by the same places how many letters were given
/// out and how many were brought in.
#[derive(Drop)]
pub(crate) struct Ends {
    pub(crate) far: Mail,
    pub(crate) given: Vec<u64>,
    pub(crate) brought: Vec<u64>,
}

/// A zero for each node.
#[tactic(auto, using(crate::proofs::FarEnds::no_zero))]
pub(crate) fn no_letters(alloc: Global, nodes: u8) -> Result<Vec<u64>, AllocError>
    ensures { IfOk result (λ numbers. AreCounts nodes numbers.items (λ _. [])) }
{
    let mut numbers = Vec::with_capacity(alloc, usize::from(nodes))?;
    for _ in 0..nodes {
        numbers.push(0)?;
    }
    Ok(numbers)
}
