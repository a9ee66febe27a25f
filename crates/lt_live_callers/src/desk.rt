// A caller with its session.
ghost use Rattle.std.specs.Prelude.{◌≡◌, ◌<◌, true, Some, length, map, slice_get};
ghost use Rattle.lt_live.specs.Words.{SameSession};
ghost use Rattle.lt_live_callers.specs.Desks.{DeskGoesOn, DesksGoOn, HearsAtDesk, SubmitsAtDesk, IsAsked, called_of};
ghost use Rattle.lt_live_callers.specs.Places.{OneAt};
ghost use Rattle.lt_live_callers.specs.Over.{NeedsNoStep, AreOver, HaveSaid};

use crate::caller::Caller;
use lt_live::{Reply, Session};
use lt_modes::Command;

/// A caller, its session, and the command that it may not submit, after which it makes no step.
#[derive(Drop)]
pub(crate) struct Desk<C> {
    pub(crate) caller: C,
    pub(crate) session: Session,
    pub(crate) refused: Option<Command>,
    // What the caller said when it was asked last whether it is done.
    pub(crate) done: bool,
}

// The next reply, if one is there.
#[tactic(auto, using(crate::proofs::Steps::heard_none, crate::proofs::Steps::heard_some))]
fn hear(session: &mut Session) -> Option<Reply>
    ensures { HearsAtDesk result session.old session.new }
{
    match session.poll() {
        Some(reply) => Some(reply),
        None => None,
    }
}

// Submits the command; where it may not be submitted, it comes back.
#[tactic(auto, using(lt_live::proofs::Settling::session_itself))]
fn submit_one(session: &mut Session, command: Command) -> Option<Command>
    ensures { SubmitsAtDesk (Some command) result session.old session.new }
{
    if session.left() > 0 && session.may_submit(command) {
        match session.submit(command) {
            Ok(()) => None,
            Err(back) => Some(back),
        }
    } else {
        Some(command)
    }
}

#[tactic(auto, using(lt_live::proofs::Settling::session_itself))]
fn submit(session: &mut Session, command: Option<Command>) -> Option<Command>
    ensures { SubmitsAtDesk command result session.old session.new }
{
    match command {
        Some(command) => submit_one(session, command),
        None => None,
    }
}

/// Asks each caller whether it is done; tells whether no desk needs a step.
pub(crate) fn all_over<C: Caller>(desks: &mut Vec<Desk<C>>) -> bool
    ensures desks { DesksGoOn C.goes 0 desks.old.items desks.new.items }
    ensures said { HaveSaid C.says (map called_of desks.new.items) }
    ensures over { result ≡ true → AreOver (map called_of desks.new.items) }
{
    let mut over = true;
    for place in 0..desks.len() {
        over = ask_at(desks, place) && over;
    }
    over
}

fn ask_at<C: Caller>(desks: &mut Vec<Desk<C>>, place: usize) -> bool
    requires { place < length desks.old.items }
    ensures asked { OneAt (IsAsked C.says) place desks.old.items desks.new.items }
    ensures over { result ≡ true
        → (desk : _) → slice_get desks.new.items place ≡ Some desk → NeedsNoStep (called_of desk) }
{
    desks[place].ask()
}

impl<C: Caller> Desk<C> {
    // Asks the caller whether it is done; tells whether it needs no step.
    fn ask(&mut self) -> bool
        ensures asked { IsAsked C.says self.old self.new }
        ensures over { result ≡ true → NeedsNoStep (called_of self.new) }
    {
        self.done = self.caller.is_done();
        self.done || self.refused.is_some()
    }

    pub(crate) fn step(&mut self)
        ensures { DeskGoesOn C.goes 1 self.old self.new }
    {
        if self.refused.is_some() {
            return;
        }
        let reply = hear(&mut self.session);
        let command = self.caller.step(reply);
        self.refused = submit(&mut self.session, command);
    }

    pub(crate) fn call(&mut self, times: u32)
        ensures { DeskGoesOn C.goes times self.old self.new }
    {
        for time in 0..times {
            self.step();
        }
    }
}
