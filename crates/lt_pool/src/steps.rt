// The steps of a seat on the word of a slot.
ghost use Rattle.std.specs.Prelude.{◌≡◌, ◌≢◌, ◌<◌, true, length, OnOk, IfErr};
ghost use Rattle.lt_pool.specs.Rule.{Has, empty_hands};
ghost use Rattle.lt_pool.specs.Steps.{HasItem, Takes, IsRefused, IsReleased, forwarded};

use crate::pool::Pool;
use crate::rule::{Claim, Forward, Release};
use crate::same::Same;
use crate::view::View;
use atomic_table::Seat;

impl<T: Same> Pool<T> {
    // Makes the slot's word the number plus 1, where it is 0.
    pub(crate) fn mark(
        &self,
        seat: &mut Seat<Option<T>, View<T>>,
        slot: u8,
        number: u8,
    ) -> Result<(), u64>
        requires of { (seat.old.table_id ≡ self.now.table) × (seat.old.me.0.firsts ≡ self.now.firsts) }
        requires live { seat.old.me.0.live ≡ true }
        requires number { number ≡ seat.old.me.0.number }
        requires inside { slot < length self.now.firsts }
        ensures of { seat.new.table_id ≡ seat.old.table_id }
        ensures ok { OnOk result (Takes T.continues slot seat.old.me seat.new.me) }
        ensures err { IfErr result (λ word. (word ≢ 0) × IsRefused slot word seat.old.me seat.new.me) }
    {
        let mine = u64::from(number) + 1;
        let word = usize::from(slot) + 1;
        let shared = &self.table.shared;
        let found = shared.compare_exchange::<Claim>(seat, word, 0, mine);
        if found != 0 {
            return Err(found);
        }
        Ok(())
    }

    // Brings a slot that the seat has before the others that it has.
    pub(crate) fn bring_forward(&self, seat: &mut Seat<Option<T>, View<T>>, slot: u8)
        requires of { seat.old.table_id ≡ self.now.table }
        requires live { seat.old.me.0.live ≡ true }
        requires hands { seat.old.me.1 ≡ empty_hands seat.old.me.0.claimed }
        requires claimed { Has slot seat.old.me.0.claimed }
        requires inside { slot < length self.now.firsts }
        ensures of { seat.new.table_id ≡ seat.old.table_id }
        ensures forwarded { seat.new.me ≡ forwarded slot seat.old.me }
    {
        let word = usize::from(slot) + 1;
        self.table.shared.load::<Forward>(seat, word);
    }

    // Makes a slot free whose item lies before the others that the seat has.
    pub(crate) fn release(&self, seat: &mut Seat<Option<T>, View<T>>, slot: u8)
        requires of { seat.old.table_id ≡ self.now.table }
        requires live { seat.old.me.0.live ≡ true }
        requires claimed { Has slot seat.old.me.0.claimed }
        requires item { HasItem T.continues self.now.firsts slot seat.old.me }
        requires inside { slot < length self.now.firsts }
        ensures of { seat.new.table_id ≡ seat.old.table_id }
        ensures released { IsReleased slot seat.old.me seat.new.me }
    {
        let word = usize::from(slot) + 1;
        self.table.shared.store::<Release>(seat, word, 0);
    }
}
