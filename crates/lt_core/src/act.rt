// What each command of a client does in the set; the end of the move, in finish.rt, follows it.
ghost use Rattle.std.specs.Prelude.{◌≡◌, ◌+◌, ◌≤◌, ◌<◌, ◌==◌, ℕ, if◌then◌else◌, length, None, Some};
ghost use Rattle.lt_modes.specs.Modes.{locks_in, locks_of, count_of};
ghost use Rattle.lt_modes.specs.Granting.{can_grant};
ghost use Rattle.lt_modes.specs.SetMove.{given, ask_of, asked, asked_or_not, locked, tried, unlocked, changed, change_held, dropped};
ghost use Rattle.lt_held.specs.HeldData.{most_locks};
ghost use Rattle.lt_desk.specs.DeskData.{FitsOut};
ghost use Rattle.lt_core.specs.declared.set_command.Answer.TheVariants.{Granted, True, False, Unlocked, NotHeld, Changed};
ghost use Rattle.lt_core.specs.CoreData.{Does, HasRoom, RoomToAsk, answer_of, commanded, move_of, told_to_wait, RoomForCommand};

use crate::one_set::Core;
use crate::serving::give;
use crate::set_command::{Answer, SetCommand};
use lt_desk::{Out, Parked};
use lt_modes::{Ask, Event, Mode, Stamp};

impl Core {
    /// A client's command: one move.
    #[inline(always)]
    pub fn act(&mut self, client: u16, command: SetCommand, stamp: Stamp, out: &mut Out) -> Answer
        requires node { stamp.node ≡ self.old.node }
        requires room { RoomForCommand client stamp.clock self.old command }
        requires fits { FitsOut (move_of stamp client command self.old.set self.old.state) out.old }
        ensures answer { result ≡ answer_of stamp.node client command self.old.state }
        ensures does { Does (move_of stamp client command self.old.set self.old.state) self.old out.old self.new out.new }
    {
        let answer = self.obey(client, command, stamp, out);
        self.finish(stamp, out);
        answer
    }

    // What the command does, before the end of the move.
    fn obey(&mut self, client: u16, command: SetCommand, stamp: Stamp, out: &mut Out) -> Answer
        requires node { stamp.node ≡ self.old.node }
        requires room { RoomForCommand client stamp.clock self.old command }
        requires fits { FitsOut (commanded stamp client command self.old.set self.old.state) out.old }
        ensures answer { result ≡ answer_of stamp.node client command self.old.state }
        ensures does { Does (commanded stamp client command self.old.set self.old.state) self.old out.old self.new out.new }
        ensures room { HasRoom 1 stamp.clock self.new }
    {
        match command {
            SetCommand::Lock(mode) => self.lock(client, mode, stamp, out),
            SetCommand::Try(mode) => self.try_lock(client, mode, stamp, out),
            SetCommand::Unlock(mode) => self.unlock(client, mode, stamp, out),
            SetCommand::Change(gives_up, mode) => self.change(client, gives_up, mode, stamp, out),
            SetCommand::DropAll => Answer::Dropped(self.drop_all(client, stamp)),
            SetCommand::Withdraw(other) => self.withdraw(client, other, stamp, out),
        }
    }

    // The client gets the lock, or its ask goes to the desk.
    fn lock(&mut self, client: u16, mode: Mode, stamp: Stamp, out: &mut Out) -> Answer
        requires node { stamp.node ≡ self.old.node }
        requires room { RoomToAsk client stamp.clock self.old }
        requires fits { FitsOut (locked self.old.set stamp client mode self.old.state) out.old }
        ensures answer { result ≡ (if can_grant stamp.node self.old.state client mode then Granted else told_to_wait client mode None self.old.state) }
        ensures does { Does (locked self.old.set stamp client mode self.old.state) self.old out.old self.new out.new }
        ensures room { HasRoom 1 stamp.clock self.new }
    {
        if !self.can_grant(client, mode) {
            return self.ask_or_not(client, mode, None, stamp, out);
        }
        self.gain(client, mode, None, stamp);
        out.push_event(Event::Grant {
            client,
            set: self.set,
            mode,
        });
        Answer::Granted
    }

    // The client gets the lock where it can have it at once.
    fn try_lock(&mut self, client: u16, mode: Mode, stamp: Stamp, out: &mut Out) -> Answer
        requires node { stamp.node ≡ self.old.node }
        requires room { HasRoom 2 stamp.clock self.old }
        requires fits { FitsOut (tried self.old.set stamp client mode self.old.state) out.old }
        ensures answer { result ≡ (if can_grant stamp.node self.old.state client mode then True else False) }
        ensures does { Does (tried self.old.set stamp client mode self.old.state) self.old out.old self.new out.new }
        ensures room { HasRoom 1 stamp.clock self.new }
    {
        let got = self.can_grant(client, mode);
        out.push_event(Event::Try {
            client,
            set: self.set,
            mode,
            got,
        });
        if !got {
            return Answer::False;
        }
        self.gain(client, mode, None, stamp);
        Answer::True
    }

    // One lock of the mode goes, where the client holds one.
    fn unlock(&mut self, client: u16, mode: Mode, stamp: Stamp, out: &mut Out) -> Answer
        requires room { HasRoom 1 stamp.clock self.old }
        requires fits { FitsOut (unlocked self.old.set client mode self.old.state) out.old }
        ensures answer { result ≡ (if count_of self.old.state.held client mode == 0 then NotHeld else Unlocked) }
        ensures does { Does (unlocked self.old.set client mode self.old.state) self.old out.old self.new out.new }
        ensures room { HasRoom 1 stamp.clock self.new }
    {
        let set = self.set;
        if !self.held.take(client, mode) {
            out.push_event(Event::NotHeld { client, set, mode });
            return Answer::NotHeld;
        }
        out.push_event(Event::Unlock { client, set, mode });
        Answer::Unlocked
    }

    // A lock of the first mode becomes one of the second, where the client holds one.
    fn change(
        &mut self,
        client: u16,
        gives_up: Mode,
        mode: Mode,
        stamp: Stamp,
        out: &mut Out,
    ) -> Answer
        requires node { stamp.node ≡ self.old.node }
        requires room { RoomToAsk client stamp.clock self.old }
        requires fits { FitsOut (changed self.old.set stamp client gives_up mode self.old.state) out.old }
        ensures answer { result ≡ (if count_of self.old.state.held client gives_up == 0 then NotHeld else (if can_grant stamp.node self.old.state client mode then Changed else told_to_wait client mode (Some gives_up) self.old.state)) }
        ensures does { Does (changed self.old.set stamp client gives_up mode self.old.state) self.old out.old self.new out.new }
        ensures room { HasRoom 1 stamp.clock self.new }
    {
        if self.held.count(client, gives_up) == 0 {
            out.push_event(Event::NotHeld {
                client,
                set: self.set,
                mode: gives_up,
            });
            return Answer::NotHeld;
        }
        self.change_held(client, gives_up, mode, stamp, out)
    }

    // The lock that the client holds changes at once, or its ask goes to the desk.
    fn change_held(
        &mut self,
        client: u16,
        gives_up: Mode,
        mode: Mode,
        stamp: Stamp,
        out: &mut Out,
    ) -> Answer
        requires node { stamp.node ≡ self.old.node }
        requires room { RoomToAsk client stamp.clock self.old }
        requires fits { FitsOut (change_held self.old.set stamp client gives_up mode self.old.state) out.old }
        ensures answer { result ≡ (if can_grant stamp.node self.old.state client mode then Changed else told_to_wait client mode (Some gives_up) self.old.state) }
        ensures does { Does (change_held self.old.set stamp client gives_up mode self.old.state) self.old out.old self.new out.new }
        ensures room { HasRoom 1 stamp.clock self.new }
    {
        if !self.can_grant(client, mode) {
            return self.ask_or_not(client, mode, Some(gives_up), stamp, out);
        }
        self.gain(client, mode, Some(gives_up), stamp);
        out.push_event(Event::Change {
            client,
            set: self.set,
            gives_up,
            mode,
        });
        Answer::Changed
    }

    // All locks of the client go; answers how many.
    fn drop_all(&mut self, client: u16, stamp: Stamp) -> u64
        requires room { HasRoom 1 stamp.clock self.old }
        ensures count { result ≡ locks_of self.old.state.held client }
        ensures state { self.new.state ≡ dropped client self.old.state }
        ensures place { (self.new.node ≡ self.old.node) × (self.new.set ≡ self.old.set) }
        ensures room { HasRoom 1 stamp.clock self.new }
    {
        self.held.drop_all(client)
    }

    // The client asks, unless an ask of it that was given up is still here.
    #[inline(always)]
    fn ask_or_not(
        &mut self,
        client: u16,
        mode: Mode,
        gives_up: Option<Mode>,
        stamp: Stamp,
        out: &mut Out,
    ) -> Answer
        requires node { stamp.node ≡ self.old.node }
        requires room { RoomToAsk client stamp.clock self.old }
        requires fits { FitsOut (asked_or_not self.old.set stamp (ask_of stamp client mode gives_up self.old.state) self.old.state) out.old }
        ensures answer { result ≡ told_to_wait client mode gives_up self.old.state }
        ensures does { Does (asked_or_not self.old.set stamp (ask_of stamp client mode gives_up self.old.state) self.old.state) self.old out.old self.new out.new }
        ensures room { HasRoom 1 stamp.clock self.new }
    {
        if self.marks.has(client) {
            return self.retake(client, mode, gives_up, stamp, out);
        }
        self.wait(client, mode, gives_up, stamp, out);
        Answer::Waits
    }

    // The client waits, and its ask goes to the desk.
    #[inline(always)]
    fn wait(&mut self, client: u16, mode: Mode, gives_up: Option<Mode>, stamp: Stamp, out: &mut Out)
        requires node { stamp.node ≡ self.old.node }
        requires room { HasRoom 2 stamp.clock self.old }
        requires pending { length self.old.state.pending < 16 }
        requires fits { FitsOut (asked self.old.set stamp (ask_of stamp client mode gives_up self.old.state) self.old.state) out.old }
        ensures does { Does (asked self.old.set stamp (ask_of stamp client mode gives_up self.old.state) self.old.state) self.old out.old self.new out.new }
        ensures room { HasRoom 1 stamp.clock self.new }
    {
        let ask = Ask {
            client,
            node: stamp.node,
            mode,
            gives_up,
            holder: self.held.is_holder(client),
            stamp,
        };
        self.pending.push(ask);
        out.push_event(Event::Wait {
            client,
            set: self.set,
            mode,
        });
        self.route(false, Parked::Ask(ask), stamp, out);
    }

    // The client gets the lock, and gives up one where it changes a mode.
    fn gain(&mut self, client: u16, mode: Mode, gives_up: Option<Mode>, stamp: Stamp)
        requires room { HasRoom 2 stamp.clock self.old }
        ensures state { self.new.state ≡ given client mode gives_up self.old.state }
        ensures place { (self.new.node ≡ self.old.node) × (self.new.set ≡ self.old.set) }
        ensures room { HasRoom 1 stamp.clock self.new }
    {
        give(&mut self.held, client, mode, gives_up);
    }
}
