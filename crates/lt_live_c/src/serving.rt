// What a service served so far, while it goes on.
ghost use Rattle.std.specs.Prelude.{◌≡◌, true, All, IfOk, IfErr, length};
ghost use Rattle.lt_live.specs.Live.{LiveScript};
ghost use Rattle.lt_live_c.specs.Serving.{has_all, ServedSoFar, TellsServed, ServedRefused, ServedRefusedBy, IsWholeIfAll, IsCountable, AreTotals};

use crate::code::{NOTHING, WRONG_HANDLE};
use crate::content::Content;
use crate::service::Service;
use lt_live::{Session, law_polled_in_turn, served};

/// How many commands were submitted to a service, and how many replies were polled.
#[derive(Clone, Copy)]
pub struct Totals {
    pub submitted: usize,
    pub polled: usize,
}

/// What the service served so far, or why it isn't told.
pub fn tell_served(content: &mut Content) -> Result<Totals, u32>
    requires { IsWholeIfAll content.old }
    ensures tells { IfOk result (λ totals. TellsServed totals content.old content.new) }
    ensures refused { IfErr result (λ code. ServedRefused code content.old content.new) }
{
    match content {
        Content::Service(service) => tell_by(service),
        _ => Err(WRONG_HANDLE),
    }
}

fn tell_by(service: &mut Service) -> Result<Totals, u32>
    requires { has_all service.old ≡ true → LiveScript service.old.stations.items service.old.sessions.items }
    ensures tells { IfOk result (λ totals. ServedSoFar totals service.old service.new) }
    ensures refused { IfErr result (λ code. ServedRefusedBy code service.old service.new) }
{
    if !service.has_all() {
        return Err(NOTHING);
    }
    Ok(served_so_far(service))
}

fn served_so_far(service: &mut Service) -> Totals
    requires all { has_all service.old ≡ true }
    requires whole { LiveScript service.old.stations.items service.old.sessions.items }
    ensures { ServedSoFar result service.old service.new }
{
    law_polled_in_turn();
    served(&mut service.stations, &mut service.sessions);
    totals_of(&service.sessions)
}

fn totals_of(sessions: &[Session]) -> Totals
    requires { All (IsCountable (length sessions.now)) sessions.now }
    ensures { AreTotals sessions.now result }
{
    let mut submitted: usize = 0;
    let mut polled: usize = 0;
    for place in 0..sessions.len() {
        let session = &sessions[place];
        submitted += session.submitted() as usize;
        polled += (session.submitted() - session.unanswered()) as usize;
    }
    Totals { submitted, polled }
}
