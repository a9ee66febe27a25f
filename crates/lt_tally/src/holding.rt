use lt_modes::Mode;
use std::marker::Model;

/// One lock that a client holds, or waits for.
#[derive(Clone, Copy, Debug)]
pub struct Holding {
    pub client: u16,
    pub set: u32,
    pub mode: Mode,
}

impl Model for Holding {
    ghost use Rattle.lt_spec.specs.Holdings.{Holding as HoldingData};

    ghost Value = { HoldingData };

    ghost view = { λ h. record { client = h.client; set = h.set; mode = h.mode } };

    ghost inverse = { λ h. record { client = h.client; set = h.set; mode = h.mode } };
}
