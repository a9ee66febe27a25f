ghost use Rattle.std.specs.Prelude.{◌≡◌, ◌≢◌, None, IfOk, IsErr};
ghost use Rattle.lt_text.specs.Text.{is_line_end, HasNone};
ghost use Rattle.lt_checker.specs.First.{TakesFirst};

use crate::following::follow_first;
use crate::reader::Reader;
use std::alloc::AllocError;

impl Reader {
    /// Takes the first line of the bytes, and tells what stands after its line end, if it is found as the line of an
    /// event that is due or, where no line is due, as that of a move. Else the reader stays as it was.
    #[inline(always)]
    pub(crate) fn take_first<'a>(&mut self, bytes: &'a [u8]) -> Result<Option<&'a [u8]>, AllocError>
        ensures script { self.new.script ≡ self.old.script }
        ensures reader { IfOk result (λ found.
            TakesFirst self.old.script self.old.reader bytes.now found self.new.reader) }
        ensures cause { IsErr result → self.old.reader.place ≢ None }
        ensures ends { IsErr result → ¬ HasNone is_line_end bytes.now }
    {
        if self.bad || self.good == u32::MAX - 1 {
            return Ok(None);
        }
        // Where memory is refused, nothing is known of what is kept.
        self.bad = true;
        let Some((is_good, later)) = follow_first(
            self.alloc,
            &self.wording,
            &mut self.world,
            &mut self.due,
            bytes,
        )?
        else {
            self.bad = false;
            return Ok(None);
        };
        if is_good {
            self.good += 1;
            self.bad = false;
        }
        Ok(Some(later))
    }
}
