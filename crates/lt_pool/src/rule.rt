// The rule of a pool's table, and what the steps on it tell.
ghost use Rattle.lt_pool.specs.Rule.{Kept};
ghost use Rattle.lt_pool.specs.Steps.{Claims, Forwards, Releases};
ghost use Rattle.lt_pool.specs.Views.{first_view, split_more, split_off, joined_more, spent_view};

use crate::same::Same;
use crate::view::View;
use atomic_table::{Join, Play, Split, TableRule};
use std::snapshot::Snapshot;

/// Each item is at home, or in the hand of the one badge that has claimed its slot.
pub struct PoolRule;

impl<T: Same> TableRule<Option<T>, View<T>, Snapshot<Vec<T>>> for PoolRule {
    ghost holds = { λ k. Kept T.continues k.value.items };

    ghost first = { λ k. first_view k.value.items };
}

// The compare and exchange of a claim.
pub(crate) struct Claim;

impl<T: Same> Play<Option<T>, View<T>> for Claim {
    ghost then = { Claims T.continues };
}

// The load that brings a claimed slot before the others.
pub(crate) struct Forward;

impl<T: Same> Play<Option<T>, View<T>> for Forward {
    ghost then = { Forwards };
}

// The store that makes a slot free again.
pub(crate) struct Release;

impl<T: Same> Play<Option<T>, View<T>> for Release {
    ghost then = { Releases };
}

// A badge is split off the first one.
pub(crate) struct SplitOff;

impl<T> Split<View<T>> for SplitOff {
    ghost left = { split_more };

    ghost right = { split_off };
}

// A badge is joined into the first one.
pub(crate) struct JoinIn;

impl<T> Join<View<T>> for JoinIn {
    ghost both = { joined_more };

    ghost spent = { spent_view };
}
