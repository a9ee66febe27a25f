// The mail of one node, and the far ends of its rings.
ghost use Rattle.std.specs.Prelude.{◌≡◌, ◌≤◌, ◌<◌, IfOk, OnOk};
ghost use Rattle.lt_mail.specs.Star.{IsStar, StarGrows, GainsRing};
ghost use Rattle.lt_mail.specs.declared.opening.TheConstants.{MAX_CAPACITY};

use crate::mail::Mail;
use crate::opening::{empty_mail, new_link};
use std::alloc::{AllocError, Global};

// A ring from the one mail to the other, at the next place of both.
fn add_ring(alloc: Global, out: &mut Mail, into: &mut Mail, capacity: u32) -> Result<(), AllocError>
    ensures { OnOk result (GainsRing capacity out.old into.old out.new into.new) }
{
    let (end, lane) = new_link(alloc, capacity)?;
    out.outs.push(end)?;
    into.ins.push(lane)?;
    Ok(())
}

/// The mail of one node, and a mail that has the far end of each of its rings, at the place of the node which that ring
/// goes to or comes from. A letter that is put into the second one for a node comes to the first from that node, and
/// one that the first sends to a node is taken from the second as one of that node.
///
/// In place of a ring for each two nodes there are two for each node.
#[tactic(auto, using(crate::proofs::StarLemmas::first_rings))]
pub fn open_star(
    alloc: Global,
    nodes: u8,
    me: u8,
    capacity: u32,
) -> Result<(Mail, Mail), AllocError>
    requires capacity { (0 < capacity) × (capacity ≤ MAX_CAPACITY) }
    ensures { IfOk result (λ mails. IsStar nodes me capacity mails.0 mails.1) }
{
    let mut mail = empty_mail(alloc, me, usize::from(nodes))?;
    let mut far = empty_mail(alloc, me, usize::from(nodes))?;
    for _ in 0..nodes {
        add_ring(alloc, &mut mail, &mut far, capacity)?;
        add_ring(alloc, &mut far, &mut mail, capacity)?;
    }
    Ok((mail, far))
}
