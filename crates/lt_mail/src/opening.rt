ghost use Rattle.std.specs.Prelude.{◌≤◌, ◌<◌, ◌+◌, IfOk, OnOk, vec_len};
ghost use Rattle.lt_mail.specs.Opening.{AreEmpty, IsEmpty, Opened, Opening, AtOne, GainsOut, GainsIn, GainsLink, IsNewLink};

use crate::in_lanes::InLanes;
use crate::lane::{InLane, OutEnd};
use crate::mail::Mail;
use rtrb::RingBuffer;
use std::alloc::{AllocError, Global};
use std::collections::VecDeque;

/// The most letters that a ring may have places for.
pub const MAX_CAPACITY: u32 = 1_024;

fn add_out(mails: &mut Vec<Mail>, from: usize, end: OutEnd) -> Result<(), AllocError>
    requires { from < vec_len mails.old }
    ensures { OnOk result (AtOne (GainsOut end) from mails.old.items mails.new.items) }
{
    let mail = &mut mails[from];
    mail.outs.push(end)?;
    Ok(())
}

fn add_in(mails: &mut Vec<Mail>, to: usize, lane: InLane) -> Result<(), AllocError>
    requires { to < vec_len mails.old }
    ensures { OnOk result (AtOne (GainsIn lane) to mails.old.items mails.new.items) }
{
    let mail = &mut mails[to];
    mail.ins.push(lane)?;
    Ok(())
}

/// The two ends of a new ring.
pub(crate) fn new_link(alloc: Global, capacity: u32) -> Result<(OutEnd, InLane), AllocError>
    ensures { IfOk result (λ lanes. IsNewLink capacity lanes.0 lanes.1) }
{
    let (sender, taker) = RingBuffer::new(alloc, capacity as usize)?;
    Ok((OutEnd { ring: sender }, InLane { ring: taker }))
}

// A ring from the one node to the other.
fn add_link(
    alloc: Global,
    mails: &mut Vec<Mail>,
    from: usize,
    to: usize,
    capacity: u32,
) -> Result<(), AllocError>
    requires { (from < vec_len mails.old) × (to < vec_len mails.old) }
    ensures { OnOk result (GainsLink capacity from to mails.old.items mails.new.items) }
{
    let (out, into) = new_link(alloc, capacity)?;
    add_out(mails, from, out)?;
    add_in(mails, to, into)?;
    Ok(())
}

// The rings from one node to each.
fn open_row(
    alloc: Global,
    mails: &mut Vec<Mail>,
    nodes: u8,
    from: u8,
    capacity: u32,
) -> Result<(), AllocError>
    requires rows { Opening nodes capacity from 0 mails.old.items }
    requires node { from < nodes }
    ensures { OnOk result (Opening nodes capacity (from + 1) 0 mails.new.items) }
{
    for to in 0..nodes {
        add_link(alloc, mails, usize::from(from), usize::from(to), capacity)?;
    }
    Ok(())
}

fn empty_mails(alloc: Global, nodes: u8) -> Result<Vec<Mail>, AllocError>
    ensures { IfOk result (λ mails. AreEmpty nodes mails.items) }
{
    let count = usize::from(nodes);
    let mut mails = Vec::with_capacity(alloc, count)?;
    for node in 0..nodes {
        mails.push(empty_mail(alloc, node, count)?)?;
    }
    Ok(mails)
}

/// A mail without rings, with room for so many each way.
pub(crate) fn empty_mail(alloc: Global, node: u8, count: usize) -> Result<Mail, AllocError>
    ensures { IfOk result (IsEmpty node) }
{
    Ok(Mail {
        me: node,
        outs: Vec::with_capacity(alloc, count)?,
        ins: InLanes::with_room(alloc, count)?,
        waiting: VecDeque::new(alloc),
    })
}

/// A mail for each node, in order, and a ring with so many places for each ordered pair of nodes.
#[tactic(auto, using(crate::proofs::OpeningLemmas::first_row))]
pub fn open(alloc: Global, nodes: u8, capacity: u32) -> Result<Vec<Mail>, AllocError>
    requires capacity { (0 < capacity) × (capacity ≤ MAX_CAPACITY) }
    ensures { IfOk result (λ mails. Opened nodes capacity mails.items) }
{
    let mut mails = empty_mails(alloc, nodes)?;
    for from in 0..nodes {
        open_row(alloc, &mut mails, nodes, from, capacity)?;
    }
    Ok(mails)
}
