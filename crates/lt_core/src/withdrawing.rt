// A wait that is given up, and an ask that was given up and is wanted again.
ghost use Rattle.std.specs.Prelude.{◌≡◌, ◌≤◌, true, if◌then◌else◌, OnOk, IsOk};
ghost use Rattle.lt_modes.specs.Serving.{is_gone};
ghost use Rattle.lt_modes.specs.Waiting.{waits, pending_ask};
ghost use Rattle.lt_modes.specs.SetMove.{ask_of, given_up, retaken, same_wish, withdrawn};
ghost use Rattle.lt_desk.specs.DeskData.{FitsOut};
ghost use Rattle.lt_core.specs.declared.set_command.Answer.TheVariants.{True, False};
ghost use Rattle.lt_core.specs.CoreData.{Does, HasRoom, KeepsRoom, RoomToMark, told_to_wait, wish};

use crate::one_set::Core;
use crate::set_command::Answer;
use lt_desk::Out;
use lt_modes::{Event, Mode, Stamp};
use std::alloc::AllocError;

impl Core {
    /// Makes room for a mark, which a client's `withdraw` may leave here.
    pub fn reserve_mark(&mut self) -> Result<(), AllocError>
        ensures state { self.new.state ≡ self.old.state }
        ensures place { (self.new.node ≡ self.old.node) × (self.new.set ≡ self.old.set) }
        ensures room { OnOk result (1 ≤ self.new.mark_room) }
        ensures kept { KeepsRoom self.old self.new }
        ensures full { 1 ≤ self.old.mark_room → IsOk result }
    {
        self.marks.reserve()
    }

    /// Whether the client's unanswered ask was given up.
    pub fn is_gone(&self, client: u16) -> bool
        ensures { result ≡ is_gone self.now.state client }
    {
        self.marks.has(client)
    }

    /// The clients whose unanswered ask was given up, the last one first.
    pub fn gone(&self) -> &[u16]
        ensures { result.now ≡ self.now.state.gone }
    {
        self.marks.clients()
    }

    /// What the other client waits for here is given up: its ask stays where it stands.
    #[inline(never)]
    pub(crate) fn withdraw(
        &mut self,
        client: u16,
        other: u16,
        stamp: Stamp,
        out: &mut Out,
    ) -> Answer
        requires room { RoomToMark stamp.clock self.old }
        requires fits { FitsOut (withdrawn self.old.set client other self.old.state) out.old }
        ensures answer { result ≡ (if waits self.old.state other then True else False) }
        ensures does { Does (withdrawn self.old.set client other self.old.state) self.old out.old self.new out.new }
        ensures room { HasRoom 1 stamp.clock self.new }
    {
        let set = self.set;
        let Some(ask) = self.live_ask(other) else {
            out.push_event(Event::Withdraw {
                client,
                other,
                set,
                got: false,
            });
            return Answer::False;
        };
        self.marks.add(other);
        out.push_event(Event::Withdrawn {
            client: other,
            set,
            mode: ask.mode,
        });
        out.push_event(Event::Withdraw {
            client,
            other,
            set,
            got: true,
        });
        Answer::True
    }

    /// The client has an ask here that was given up: it takes up one that wants the same; for another it can't ask.
    #[inline(never)]
    pub(crate) fn retake(
        &mut self,
        client: u16,
        mode: Mode,
        gives_up: Option<Mode>,
        stamp: Stamp,
        out: &mut Out,
    ) -> Answer
        requires void { is_gone self.old.state client ≡ true }
        requires room { HasRoom 2 stamp.clock self.old }
        requires fits { FitsOut (retaken self.old.set (ask_of stamp client mode gives_up self.old.state) self.old.state) out.old }
        ensures answer { result ≡ told_to_wait client mode gives_up self.old.state }
        ensures does { Does (retaken self.old.set (ask_of stamp client mode gives_up self.old.state) self.old.state) self.old out.old self.new out.new }
        ensures room { HasRoom 1 stamp.clock self.new }
    {
        let set = self.set;
        if !self.wanted(client, mode, gives_up) {
            out.push_event(Event::Withheld { client, set, mode });
            return Answer::Withheld;
        }
        self.marks.remove(client);
        out.push_event(Event::Wait { client, set, mode });
        Answer::Waits
    }

    // Whether the client's unanswered ask wants this.
    fn wanted(&self, client: u16, mode: Mode, gives_up: Option<Mode>) -> bool
        ensures { result ≡ same_wish (wish mode gives_up) (pending_ask self.now.state client) }
    {
        match self.ask_of(client) {
            Some(ask) => mode == ask.mode && gives_up == ask.gives_up,
            None => false,
        }
    }
}
