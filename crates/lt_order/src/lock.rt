ghost use Rattle.std.specs.Prelude.{◌≡◌, nat_lt};
ghost use Rattle.lt_spec.specs.NodeMove.{family};
ghost use Rattle.lt_spec.specs.Holdings.{same_holding, is_dropped};

use lt_modes::Mode;
use lt_script::Script;
use std::marker::Model;

/// A lock that a client may hold.
#[derive(Drop)]
pub(crate) struct Lock {
    client: u16,
    set: u32,
    mode: Mode,
}

impl Model for Lock {
    ghost use Rattle.lt_spec.specs.Holdings.{Holding};

    ghost Value = { Holding };

    ghost view = { λ l. record { client = l.client; set = l.set; mode = l.mode } };
}

impl Lock {
    pub(crate) fn new(client: u16, set: u32, mode: Mode) -> Lock
        ensures { result ≡ record { client = client; set = set; mode = mode } }
    {
        Lock { client, set, mode }
    }

    /// Whether it is of a set with a smaller number.
    pub(crate) fn is_below(&self, set: u32) -> bool
        ensures { result ≡ nat_lt self.now.set set }
    {
        self.set < set
    }

    /// Whether the two are the same.
    pub(crate) fn is_same(&self, other: &Lock) -> bool
        ensures { result ≡ same_holding other.now self.now }
    {
        other.client == self.client && other.set == self.set && other.mode == self.mode
    }

    /// Whether it is one of the client in the family of the set.
    pub(crate) fn is_dropped(&self, script: &Script, client: u16, set: u32) -> bool
        ensures { result ≡ is_dropped script.now client set self.now }
    {
        self.client == client && family(script, self.set) == family(script, set)
    }
}

// The number of the first set of the set's family; 0 of a set that the script doesn't have.
fn family(script: &Script, set: u32) -> u32
    ensures { result ≡ family script.now set }
{
    if set < script.sets() {
        script.family(set)
    } else {
        0
    }
}
