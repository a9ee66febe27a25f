ghost use Rattle.std.specs.Prelude.{◌≡◌};
ghost use Rattle.lt_nest.specs.Forest.{is_own, MarksOwn};
ghost use Rattle.lt_nest.specs.Kept.{IsForest};

use crate::forest::{Transaction, is_own, parent};

/// Which transactions are x or an ancestor of x, found by one walk.
///
/// The 256 numbers that end at x have a mark each; of those below them the ancestor is kept where the walk ended.
#[derive(Clone, Copy)]
pub(crate) struct Marks {
    first: u16,
    own: [bool; 256],
    above: Option<u16>,
}

impl Marks {
    pub fn new(transactions: &[Transaction], x: u16) -> Marks
        requires { IsForest transactions.now }
        ensures { MarksOwn transactions.now x result }
    {
        let first = x.saturating_sub(255);
        let mut own = [false; 256];
        let mut at = x;
        while at >= first {
            own[usize::from(at - first)] = true;
            match parent(transactions, at) {
                Some(up) => at = up,
                None => {
                    return Marks {
                        first,
                        own,
                        above: None,
                    };
                }
            }
        }
        Marks {
            first,
            own,
            above: Some(at),
        }
    }

    /// Whether the owner is x or an ancestor of x.
    #[tactic(auto, using(crate::proofs::Ancestors::own_lower))]
    pub fn is_own(&self, transactions: &[Transaction], owner: u16, x: u16) -> bool
        requires forest { IsForest transactions.now }
        requires marks { MarksOwn transactions.now x self.now }
        ensures { result ≡ is_own transactions.now owner x }
    {
        if owner >= self.first {
            return owner <= x && self.own[usize::from(owner - self.first)];
        }
        match self.above {
            Some(up) => is_own(transactions, owner, up),
            None => false,
        }
    }
}
