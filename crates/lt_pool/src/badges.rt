// Badges that are split off the first one, and joined into it.
ghost use Rattle.std.specs.Prelude.{◌≡◌, ◌≢◌, ◌+◌, ◌<◌, []};
ghost use Rattle.lt_pool.specs.PoolData.{new_badge, after_split, after_join};

use crate::pool::{Badge, Pool};
use crate::rule::{JoinIn, SplitOff};
use crate::same::Same;

impl<T: Same> Pool<T> {
    /// Splits a further badge off the first one.
    pub fn split(&self, badge: &mut Badge<T>) -> Badge<T>
        requires of { badge.old.pool ≡ self.now }
        requires first { badge.old.number ≡ 0 }
        requires room { badge.old.splits < 255 }
        ensures badge { badge.new ≡ after_split badge.old }
        ensures new { result ≡ new_badge self.now (badge.old.splits + 1) }
    {
        badge.splits += 1;
        let seat = self.table.shared.split_seat::<SplitOff>(&mut badge.seat);
        Badge {
            seat,
            number: badge.splits,
            splits: 0,
        }
    }

    /// Joins another badge into the first one.
    pub fn join(&self, badge: &mut Badge<T>, other: Badge<T>)
        requires of { (badge.old.pool ≡ self.now) × (other.pool ≡ self.now) }
        requires first { badge.old.number ≡ 0 }
        requires other { (other.number ≢ 0) × (other.claimed ≡ []) }
        ensures { badge.new ≡ after_join other badge.old }
    {
        let Badge { seat, .. } = other;
        self.table.shared.join_seat::<JoinIn>(&mut badge.seat, seat);
    }
}
