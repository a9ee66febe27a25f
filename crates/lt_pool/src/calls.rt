// How a slot is claimed, and given back.
ghost use Rattle.std.specs.Prelude.{◌≡◌, ◌≢◌, ◌<◌, length, OnOk, IfOk, IfErr};
ghost use Rattle.lt_pool.specs.Rule.{Has, ContinuesAt};
ghost use Rattle.lt_pool.specs.History.{claim_access, refusal_access, give_access};
ghost use Rattle.lt_pool.specs.PoolData.{after_claim, after_refusal, after_give, SameButHistory, Accesses};

use crate::pool::{Badge, Pool};
use crate::same::Same;

impl<T: Same> Pool<T> {
    /// Takes the item of a slot out of the pool, in one step on the slot's word.
    ///
    /// Where the slot isn't free, the error is the word that this step read. The step is the last access in the
    /// badge's history, and between it and the badge's access before there are those of other badges alone.
    pub fn claim(&self, badge: &mut Badge<T>, slot: u8) -> Result<T, u64>
        requires of { badge.old.pool ≡ self.now }
        requires inside { slot < length self.now.firsts }
        ensures item { IfOk result (ContinuesAt T.continues self.now.firsts slot) }
        ensures ok { OnOk result (SameButHistory (after_claim slot badge.old) badge.new) }
        ensures err { IfErr result (λ word. (word ≢ 0) × SameButHistory (after_refusal slot word badge.old) badge.new) }
        ensures takes { OnOk result (Accesses (claim_access badge.old.number slot) badge.old badge.new) }
        ensures refused { IfErr result (λ word. Accesses (refusal_access badge.old.number slot word) badge.old badge.new) }
    {
        let i = usize::from(slot);
        self.mark(&mut badge.seat, slot, badge.number)?;
        match self.table.shared.exchange(&mut badge.seat, i, None) {
            Some(item) => Ok(item),
            None => unreachable!(),
        }
    }

    /// Puts an item back into the slot that it was claimed from.
    pub fn give(&self, badge: &mut Badge<T>, slot: u8, item: T)
        requires of { badge.old.pool ≡ self.now }
        requires claimed { Has slot badge.old.claimed }
        requires item { ContinuesAt T.continues self.now.firsts slot item }
        ensures badge { SameButHistory (after_give slot badge.old) badge.new }
        ensures frees { Accesses (give_access badge.old.number slot) badge.old badge.new }
    {
        let i = usize::from(slot);
        self.bring_forward(&mut badge.seat, slot);
        drop(self.table.shared.exchange(&mut badge.seat, i, Some(item)));
        self.release(&mut badge.seat, slot);
    }
}
