// Handing over: the desk goes to the node of the ask that draws it, in a letter.
ghost use Rattle.std.specs.Prelude.{◌≡◌, ◌<◌, length, Some, None, slice_index_or};
ghost use Rattle.lt_modes.specs.State.{no_ask};
ghost use Rattle.lt_modes.specs.HandingOver.{next_draw, hand_over, hand_over_to};
ghost use Rattle.lt_desk.specs.DeskData.{FitsOut};
ghost use Rattle.lt_core.specs.CoreData.{Does, epoch_of};

use crate::one_set::Core;
use lt_desk::{Body, Desk, Out};
use lt_modes::{Event, Stamp};

impl Core {
    /// The desk goes to the node of the ask that draws it, where there is one.
    pub(crate) fn hand_over(&mut self, draw: Option<u32>, stamp: Stamp, out: &mut Out)
        requires draw { draw ≡ next_draw self.old.node self.old.state }
        requires node { stamp.node ≡ self.old.node }
        requires epoch { epoch_of self.old.state.desk < stamp.clock }
        requires fits { FitsOut (hand_over self.old.set stamp self.old.state) out.old }
        ensures does { Does (hand_over self.old.set stamp self.old.state) self.old out.old self.new out.new }
    {
        if let Some(k) = draw {
            if let Some(desk) = self.desk.take() {
                self.send_desk(k, desk, stamp, out);
            }
        }
    }

    // The desk goes to the node of the ask at this place.
    fn send_desk(&mut self, k: u32, mut desk: Desk, stamp: Stamp, out: &mut Out)
        requires within { k < length desk.desk.queue }
        requires node { stamp.node ≡ self.old.node }
        requires gone { self.old.state.desk ≡ None }
        requires epoch { desk.desk.epoch < stamp.clock }
        requires fits { FitsOut (hand_over_to self.old.set stamp self.old.state (slice_index_or desk.desk.queue k no_ask).node (Some desk.desk)) out.old }
        ensures does { Does (hand_over_to self.old.set stamp self.old.state (slice_index_or desk.desk.queue k no_ask).node (Some desk.desk)) self.old out.old self.new out.new }
    {
        let to = desk.ask(k).node;
        desk.hand_over(stamp.node, &self.held, self.pending.stamps(), stamp);
        let epoch = desk.epoch();
        self.charge = self.held.modes();
        self.links.set(to, epoch);
        out.push_event(Event::Token {
            set: self.set,
            to,
            epoch,
        });
        let post = self.post(to, Body::Token(desk), stamp);
        out.push_letter(post);
    }
}
