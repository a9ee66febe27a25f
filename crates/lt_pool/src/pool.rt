use crate::rule::PoolRule;
use crate::same::Same;
use crate::view::View;
use atomic_table::{Seat, Table};
use std::alloc::Global;
use std::marker::Model;
use std::snapshot::Snapshot;

/// Items in slots, which badges claim and give back.
///
/// Word 0 of its table stays 0. Word i + 1 is of slot i: 0 while its item is at home, and else the number plus 1 of
/// the badge that has claimed it.
#[derive(Drop)]
pub struct Pool<T: Same> {
    pub(crate) table: Table<Option<T>, View<T>, Snapshot<Vec<T>>, PoolRule, Global>,
    pub(crate) alloc: Global,
}

impl<T: Same> Model for Pool<T> {
    ghost use Rattle.lt_pool.specs.PoolData.{PoolData, IsTableOf};

    ghost Value = { PoolData T };

    ghost view = { λ p. record { table = p.table.shared.table_id; firsts = p.table.shared.key.value.items } };

    ghost invariant = { λ p. IsTableOf p.table.shared.key.value.items p.table.shared.table_id };
}

/// What a worker claims slots of a pool with.
#[derive(Drop)]
pub struct Badge<T: Same> {
    pub(crate) seat: Seat<Option<T>, View<T>>,
    pub(crate) number: u8,
    pub(crate) splits: u8,
}

impl<T: Same> Model for Badge<T> {
    ghost use Rattle.lt_pool.specs.PoolData.{BadgeData};
    ghost use Rattle.lt_pool.specs.Views.{badge_data};
    ghost use Rattle.lt_pool.specs.Steps.{IsBadge};

    ghost Value = { BadgeData T };

    ghost view = { λ p. badge_data p.seat.table_id p.seat.me.0 };

    ghost invariant = { λ p. IsBadge p.number p.splits p.seat.me };
}
