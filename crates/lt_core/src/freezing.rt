// Freezing: the nodes that have a lock learn which modes the waiting asks keep from being granted there.
ghost use Rattle.std.specs.Prelude.{◌≡◌, ◌≤◌, ◌<◌};
ghost use Rattle.lt_modes.specs.HandingOver.{next_draw};
ghost use Rattle.lt_modes.specs.Freezing.{freeze};
ghost use Rattle.lt_desk.specs.DeskData.{bits_from, FitsOut, out_after};
ghost use Rattle.lt_core.specs.CoreData.{Does, HasRoom, epoch_of};
ghost use Rattle.lt_core.specs.Bound.{notices, node_if};

use crate::one_set::Core;
use lt_desk::{Body, News, Out, Targets};
use lt_modes::{Event, Stamp};

impl Core {
    /// The desk's node tells the targets, and keeps the frozen modes itself.
    pub(crate) fn freeze(&mut self, stamp: Stamp, out: &mut Out)
        requires node { stamp.node ≡ self.old.node }
        requires room { HasRoom 0 stamp.clock self.old }
        requires fits { FitsOut (freeze self.old.set stamp self.old.state) out.old }
        ensures does { Does (freeze self.old.set stamp self.old.state) self.old out.old self.new out.new }
        ensures epoch { epoch_of self.new.state.desk ≡ epoch_of self.old.state.desk }
        ensures draw { next_draw self.new.node self.new.state ≡ next_draw self.old.node self.old.state }
    {
        let Some(desk) = &mut self.desk else {
            return;
        };
        let nodes = desk.nodes();
        let targets = desk.freeze(stamp.node);
        self.frozen = targets.modes;
        self.number = targets.number;
        self.send_notices(&targets, nodes, stamp, out);
    }

    // The nodes of the mask, which are below this number, are sent the frozen modes.
    fn send_notices(&self, targets: &Targets, nodes: u8, stamp: Stamp, out: &mut Out)
        requires nodes { nodes ≤ 64 }
        requires fits { FitsOut (notices self.now.set stamp self.now.state targets.now.modes targets.now.number (bits_from nodes 0 targets.now.nodes)) out.old }
        ensures { out.new ≡ out_after (notices self.now.set stamp self.now.state targets.now.modes targets.now.number (bits_from nodes 0 targets.now.nodes)) out.old }
    {
        if targets.nodes == 0 {
            return;
        }
        for x in 0..nodes {
            self.send_notice(x, targets, stamp, out);
        }
    }

    // The node is sent the frozen modes, where it is of the mask.
    fn send_notice(&self, to: u8, targets: &Targets, stamp: Stamp, out: &mut Out)
        requires node { to < 64 }
        requires fits { FitsOut (notices self.now.set stamp self.now.state targets.now.modes targets.now.number (node_if targets.now.nodes to)) out.old }
        ensures { out.new ≡ out_after (notices self.now.set stamp self.now.state targets.now.modes targets.now.number (node_if targets.now.nodes to)) out.old }
    {
        if (targets.nodes >> to) % 2 == 0 {
            return;
        }
        out.push_event(Event::Freeze {
            set: self.set,
            to,
            number: targets.number,
            modes: targets.modes,
        });
        let news = News {
            number: targets.number,
            modes: targets.modes,
        };
        let post = self.post(to, Body::Freeze(news), stamp);
        out.push_letter(post);
    }
}
