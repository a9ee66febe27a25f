// How many visits a worker makes.
ghost use Rattle.std.specs.Prelude.{◌≡◌, ◌↔◌, IsTrue};
ghost use Rattle.lt_threads.specs.Visits.{no_visits, after_move, after_refused, after_vain, most_vain, most_moved, MayVisit, HaveRoom};

use lt_spec::MAX_MOVES_OF_SERVICE;

/// How many visits a worker has made.
#[derive(Clone, Copy)]
pub(crate) struct Visits {
    /// In all. Nothing reads it but contracts.
    pub(crate) made: u128,
    /// Those that made a move.
    pub(crate) moved: u64,
    /// Those since the last one that made a move, at which another worker had the node.
    pub(crate) refused: u64,
    /// Those since then of a node that made no move.
    pub(crate) vain: u64,
}

impl Visits {
    pub(crate) fn none() -> Visits
        ensures { result ≡ no_visits }
    {
        Visits {
            made: 0,
            moved: 0,
            refused: 0,
            vain: 0,
        }
    }

    /// Whether a worker of so many nodes may make a further one.
    pub(crate) fn may_go_on(&self, count: u8, patience: u32) -> bool
        ensures { IsTrue result ↔ MayVisit count patience self.now }
    {
        self.moved < most_moved(count)
            && self.refused < u64::from(patience)
            && self.vain < most_vain(count, patience)
    }

    pub(crate) fn note_move(&mut self)
        requires { HaveRoom self.old }
        ensures { self.new ≡ after_move self.old }
    {
        self.made += 1;
        self.moved += 1;
        self.refused = 0;
        self.vain = 0;
    }

    pub(crate) fn note_refusal(&mut self)
        requires { HaveRoom self.old }
        ensures { self.new ≡ after_refused self.old }
    {
        self.made += 1;
        self.refused += 1;
    }

    pub(crate) fn note_vain(&mut self)
        requires { HaveRoom self.old }
        ensures { self.new ≡ after_vain self.old }
    {
        self.made += 1;
        self.vain += 1;
    }
}

// How many visits of nodes that are claimed are made at most between two moves: after each refused claim the worker
// goes once round all nodes.
fn most_vain(count: u8, patience: u32) -> u64
    ensures { result ≡ most_vain count patience }
{
    (u64::from(patience) + 2) * (u64::from(count) + 1)
}

// How many visits make a move at most: as many as all nodes may make moves.
fn most_moved(count: u8) -> u64
    ensures { result ≡ most_moved count }
{
    u64::from(count) * MAX_MOVES_OF_SERVICE
}
