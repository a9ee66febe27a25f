ghost use Rattle.std.specs.Prelude.{◌≡◌, ◌<◌, ◌^◌, length, slice_get, option_map};
ghost use Rattle.lt_inbox.specs.Mail.{AreReceivers, takes_by, takes_of};
ghost use Rattle.lt_inbox.specs.Takes.{turn_of_take};

use crate::node_set::{NodeSet, node_at};

/// The receiver takes the front letter of the sender.
#[derive(Clone, Copy)]
pub struct Take {
    pub receiver: u8,
    pub sender: u8,
}

/// The take at place `k`, by receiver and then by sender.
pub(crate) fn at(boxes: &[NodeSet], receivers: &NodeSet, k: u32) -> Option<Take>
    requires few { length boxes.now < 2 ^ 8 }
    requires receivers { AreReceivers boxes.now receivers.now }
    ensures { option_map turn_of_take result ≡ slice_get (takes_by boxes.now) k }
{
    let mut left = k;
    let mut from = 0;
    while let Some(receiver) = receivers.first_from(from) {
        let senders = &boxes[usize::from(receiver)];
        let count = u32::from(senders.len());
        if left < count {
            return take_from(senders, receiver, left);
        }
        left -= count;
        from = receiver + 1;
    }
    None
}

// The take at place `k` of this receiver.
fn take_from(senders: &NodeSet, receiver: u8, k: u32) -> Option<Take>
    ensures { option_map turn_of_take result ≡ slice_get (takes_of receiver senders.now) k }
{
    let sender = node_at(senders, k)?;
    Some(Take { receiver, sender })
}
