ghost use Rattle.std.specs.Prelude.{◌≡◌, ◌≤◌, ◌<◌, [], length};
ghost use Rattle.lt_merge.specs.Merging.{with_events};

use lt_desk::Out;
use lt_merge::Run;

/// Notes the event lines of the last move.
pub(crate) fn note_events(out: &mut Out, run: &mut Run)
    requires some { 0 < length run.old.entries }
    requires room { length out.old.events ≤ run.old.room }
    ensures entries { run.new.entries ≡ with_events run.old.entries out.old.events }
    ensures out { out.new ≡ record out.old { events = [] } }
{
    while let Some(event) = out.next_event() {
        run.add_event(event);
    }
}
