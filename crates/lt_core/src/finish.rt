// The end of a move: the desk's turn where the desk is here, else a tell where one is due.
ghost use Rattle.std.specs.Prelude.{◌≡◌};
ghost use Rattle.lt_modes.specs.SetMove.{attend, finish};
ghost use Rattle.lt_desk.specs.DeskData.{FitsOut};
ghost use Rattle.lt_core.specs.CoreData.{Does, HasRoom};

use crate::one_set::Core;
use lt_desk::Out;
use lt_modes::Stamp;

impl Core {
    /// The end of a move: the desk's turn where it is here, else a tell where one is due.
    #[inline(always)]
    pub fn finish(&mut self, stamp: Stamp, out: &mut Out)
        requires node { stamp.node ≡ self.old.node }
        requires room { HasRoom 1 stamp.clock self.old }
        requires fits { FitsOut (finish self.old.set stamp self.old.state) out.old }
        ensures does { Does (finish self.old.set stamp self.old.state) self.old out.old self.new out.new }
    {
        if self.desk.is_some() {
            self.attend(stamp, out);
        } else {
            self.tell(stamp, out);
        }
    }

    // The desk's turn: services, then freezes, then the token.
    fn attend(&mut self, stamp: Stamp, out: &mut Out)
        requires node { stamp.node ≡ self.old.node }
        requires room { HasRoom 0 stamp.clock self.old }
        requires fits { FitsOut (attend self.old.set stamp self.old.state) out.old }
        ensures does { Does (attend self.old.set stamp self.old.state) self.old out.old self.new out.new }
    {
        let draw = self.serve(stamp, out);
        self.freeze(stamp, out);
        self.hand_over(draw, stamp, out);
    }
}
