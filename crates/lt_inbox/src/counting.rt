ghost use Rattle.std.specs.Prelude.{◌≡◌, ◌<◌, ◌+◌, ◌-◌, ◌^◌, ℕ, length, nat_lt, slice_set, IfOk};
ghost use Rattle.lt_inbox.specs.Counts.{count_between, count_from, counts_to, put_count};

use std::alloc::{AllocError, Global};
use std::marker::Model;

/// How many letters are on their way to one node, by sender.
#[derive(Drop)]
pub(crate) struct SenderCounts {
    counts: Vec<usize>,
}

impl Model for SenderCounts {
    ghost use Rattle.std.specs.Prelude.{List, ℕ};

    ghost Value = { List ℕ };

    ghost view = { λ s. s.counts.items };
}

impl SenderCounts {
    // No letters of so many senders.
    fn new(alloc: Global, nodes: u8) -> Result<SenderCounts, AllocError>
        ensures senders { IfOk result (λ counts. length counts ≡ nodes) }
        ensures none { IfOk result (λ counts. (p : ℕ) → count_from counts p ≡ 0) }
    {
        let mut counts = Vec::with_capacity(alloc, usize::from(nodes))?;
        for _ in 0..nodes {
            counts.push(0)?;
        }
        Ok(SenderCounts { counts })
    }

    // Counts one letter more of the sender.
    fn add(&mut self, sender: u8)
        requires sender { sender < length self.old }
        requires few { count_from self.old sender + 1 < 2 ^ 64 }
        ensures { self.new ≡ slice_set self.old sender (count_from self.old sender + 1) }
    {
        self.counts[usize::from(sender)] += 1;
    }

    // Counts one letter less of the sender; answers whether there is one more.
    fn take(&mut self, sender: u8) -> bool
        requires sender { sender < length self.old }
        requires some { 0 < count_from self.old sender }
        ensures counts { self.new ≡ slice_set self.old sender (count_from self.old sender - 1) }
        ensures more { result ≡ nat_lt 1 (count_from self.old sender) }
    {
        let count = &mut self.counts[usize::from(sender)];
        let more = *count > 1;
        *count -= 1;
        more
    }
}

/// No letters between so many nodes.
pub(crate) fn no_counts(alloc: Global, nodes: u8) -> Result<Vec<SenderCounts>, AllocError>
    ensures receivers { IfOk result (λ rows. length rows.items ≡ nodes) }
    ensures senders { IfOk result (λ rows. (q : ℕ) → q < nodes → length (counts_to rows.items q) ≡ nodes) }
    ensures none { IfOk result (λ rows. (p q : ℕ) → count_between rows.items p q ≡ 0) }
{
    let mut rows = Vec::with_capacity(alloc, usize::from(nodes))?;
    for _ in 0..nodes {
        rows.push(SenderCounts::new(alloc, nodes)?)?;
    }
    Ok(rows)
}

/// Counts one letter more from the sender to the receiver.
pub(crate) fn count_sent(rows: &mut Vec<SenderCounts>, sender: u8, receiver: u8)
    requires receiver { receiver < length rows.old.items }
    requires sender { sender < length (counts_to rows.old.items receiver) }
    requires few { count_between rows.old.items sender receiver + 1 < 2 ^ 64 }
    ensures { rows.new.items ≡ put_count rows.old.items sender receiver (count_between rows.old.items sender receiver + 1) }
{
    rows[usize::from(receiver)].add(sender);
}

/// Counts one letter less from the sender to the receiver; answers whether there is one more.
pub(crate) fn count_taken(rows: &mut Vec<SenderCounts>, sender: u8, receiver: u8) -> bool
    requires receiver { receiver < length rows.old.items }
    requires sender { sender < length (counts_to rows.old.items receiver) }
    requires some { 0 < count_between rows.old.items sender receiver }
    ensures counts { rows.new.items ≡ put_count rows.old.items sender receiver (count_between rows.old.items sender receiver - 1) }
    ensures more { result ≡ nat_lt 1 (count_between rows.old.items sender receiver) }
{
    rows[usize::from(receiver)].take(sender)
}
