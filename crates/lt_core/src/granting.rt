// Granting at once: whether a client can have a lock of a mode without an ask.
ghost use Rattle.std.specs.Prelude.{◌≡◌, ◌&&◌, not};
ghost use Rattle.lt_modes.specs.Modes.{has, covers};
ghost use Rattle.lt_modes.specs.Granting.{can_grant};
ghost use Rattle.lt_desk.specs.Sights.{joins_at_desk};

use crate::one_set::Core;
use lt_modes::Mode;

impl Core {
    /// Whether the client can have a lock of this mode at once.
    #[inline(always)]
    pub fn can_grant(&self, client: u16, mode: Mode) -> bool
        ensures { result ≡ can_grant self.now.node self.now.state client mode }
    {
        self.held.modes_of(client).covers(mode) || self.may_join(client, mode)
    }

    // Whether no lock of another client here conflicts, and nothing that the desk or the charge knows of.
    fn may_join(&self, client: u16, mode: Mode) -> bool
        ensures { result ≡ joins_at_desk self.now.node self.now.state client mode }
    {
        match &self.desk {
            Some(desk) => desk.would_grant(
                self.links.me(),
                &self.held,
                self.pending.stamps(),
                client,
                mode,
                self.held.is_holder(client),
            ),
            None => !self.held.others_bar(client, mode) && self.is_charged(mode),
        }
    }

    // Whether the charge covers the mode, and it isn't frozen.
    fn is_charged(&self, mode: Mode) -> bool
        ensures { result ≡ (covers self.now.state.charge mode && not (has mode self.now.state.frozen)) }
    {
        self.charge.covers(mode) && !self.frozen.has(mode)
    }
}
