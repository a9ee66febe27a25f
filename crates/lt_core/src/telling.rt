// Telling: a node without the desk tells it what it holds, where its held modes bar others than it told.
ghost use Rattle.std.specs.Prelude.{◌≡◌};
ghost use Rattle.lt_modes.specs.Modes.{bars, held_modes, same_modes};
ghost use Rattle.lt_modes.specs.SetMove.{make_tell, tell};
ghost use Rattle.lt_desk.specs.DeskData.{FitsOut};
ghost use Rattle.lt_core.specs.CoreData.{Does, HasRoom};

use crate::one_set::Core;
use lt_desk::{Out, Parked, Tell};
use lt_modes::Stamp;

impl Core {
    // A tell where the held modes bar other modes than the charge does.
    #[inline(always)]
    pub(crate) fn tell(&mut self, stamp: Stamp, out: &mut Out)
        requires node { stamp.node ≡ self.old.node }
        requires room { HasRoom 1 stamp.clock self.old }
        requires fits { FitsOut (tell self.old.set stamp self.old.state) out.old }
        ensures does { Does (tell self.old.set stamp self.old.state) self.old out.old self.new out.new }
    {
        if !self.is_told() {
            self.make_tell(stamp, out);
        }
    }

    // Whether the held modes bar what the charge does. Most often the two are the same.
    #[tactic(auto, using(crate::proofs::NoticeLemmas::bars_or_same))]
    #[inline(always)]
    fn is_told(&self) -> bool
        ensures { result ≡ same_modes (bars (held_modes self.now.state.held)) (bars self.now.state.charge) }
    {
        let held = self.held.modes();
        held.same(self.charge) || held.bars().same(self.charge.bars())
    }

    // The node tells the desk what it holds, and its charge is what it told.
    #[inline(never)]
    fn make_tell(&mut self, stamp: Stamp, out: &mut Out)
        requires node { stamp.node ≡ self.old.node }
        requires room { HasRoom 1 stamp.clock self.old }
        requires fits { FitsOut (make_tell self.old.set stamp self.old.state) out.old }
        ensures does { Does (make_tell self.old.set stamp self.old.state) self.old out.old self.new out.new }
    {
        let modes = self.held.modes();
        self.charge = modes;
        let Some(mut pending) = self.spare.take() else {
            unreachable!()
        };
        pending.as_mut().copy_from(self.pending.stamps());
        let tell = Tell {
            node: stamp.node,
            modes,
            pending,
            stamp,
        };
        self.route(false, Parked::Tell(tell), stamp, out);
    }
}
