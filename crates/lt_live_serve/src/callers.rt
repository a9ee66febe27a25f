// Callers.
ghost use Rattle.std.specs.Prelude.{◌≡◌, ◌≤◌, length, take};
ghost use Rattle.lt_live.specs.Words.{submitted, polled, places};
ghost use Rattle.lt_live_serve.specs.Serves.{AsksAll};

use lt_live::{Reply, Session};
use lt_modes::Command;

/// A caller: its session, the commands of its client, and the replies that it polled.
#[derive(Drop)]
pub(crate) struct Caller {
    pub(crate) session: Session,
    pub(crate) commands: Vec<Command>,
    // How many of the commands were submitted.
    pub(crate) next: usize,
    pub(crate) heard: Vec<Reply>,
    pub(crate) ghost submits: { submitted session ≡ take next commands.items },
    pub(crate) ghost within: { next ≤ length commands.items },
    pub(crate) ghost hears: { polled session ≡ heard.items },
    pub(crate) ghost few: { length commands.items ≤ session.share },
    pub(crate) ghost roomy: { session.share ≤ places session },
    pub(crate) ghost asks: { AsksAll session.script session.client commands.items },
}
