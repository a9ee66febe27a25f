// The numbers of a script by which a letter is tested.
ghost use Rattle.std.specs.Prelude.{◌≡◌};
ghost use Rattle.lt_modes.specs.Fits.{is_at_home};
ghost use Rattle.lt_core.specs.Steps.{rule_numbers};

use lt_modes::Ask;

/// The numbers of a script by which a letter is tested.
#[derive(Clone, Copy)]
pub struct Numbers<'a> {
    pub nodes: u8,
    pub sets: u32,
    /// The node of each client.
    pub homes: &'a [u8],
}

impl Numbers<'_> {
    /// Whether the ask is of a client of its node.
    pub(crate) fn is_at_home(&self, ask: &Ask) -> bool
        ensures { result ≡ is_at_home (rule_numbers self.now) ask.now }
    {
        let client = usize::from(ask.client);
        ask.node < self.nodes && (client < self.homes.len() && self.homes[client] == ask.node)
    }
}
