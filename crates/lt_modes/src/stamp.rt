ghost use Rattle.std.specs.Prelude.{◌≡◌};
ghost use Rattle.lt_modes.specs.Telling.{is_newer};

/// When a move was made, and by whom.
#[derive(Clone, Copy, Debug, Default, PartialEq, Eq, Hash)]
pub struct Stamp {
    pub clock: u64,
    pub node: u8,
}

impl Stamp {
    /// Whether this stamp is greater than the other: by the clock, and then by the node's number.
    pub fn is_newer(self, other: Stamp) -> bool
        ensures { result ≡ is_newer self other }
    {
        other.clock < self.clock || (other.clock == self.clock && other.node < self.node)
    }
}
