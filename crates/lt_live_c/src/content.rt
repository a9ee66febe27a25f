// What a handle of C stands for.
ghost use Rattle.std.specs.Prelude.{◌≡◌, ◌≢◌, ◌↔◌, IsTrue, true, IfOk, IfErr, OnOk};
ghost use Rattle.lt_live_c.specs.declared.code.TheConstants.{WRONG_HANDLE};
ghost use Rattle.lt_live_c.specs.Taking.{IsWholeService, stands_for_service, GivesTo, GiveRefusedBy};
ghost use Rattle.lt_live_c.specs.Journals.{JournalIsOf, FinishRefused};
ghost use Rattle.lt_live_c.specs.NodeCalls.{StandsForNode, NodeJournalIsOf, NodeNotFinished};

use crate::code::{FORGOTTEN, NO_MEMORY, TOO_MANY, WRONG_HANDLE};
use crate::journal::Journal;
use crate::node::Node;
use crate::service::Service;
use lt_live::{FinishError, Session, Station};
use std::alloc::Global;

/// What a handle of C stands for.
pub enum Content {
    Service(Service),
    Station(Station),
    Session(Session),
    Journal(Journal),
    Node(Node),
}

// Written out, so that all places which let a content go call this.
impl Drop for Content {
    fn drop(self) {
        match self {
            Content::Service(service) => drop(service),
            Content::Station(station) => drop(station),
            Content::Session(session) => drop(session),
            Content::Journal(journal) => drop(journal),
            Content::Node(node) => drop(node),
        }
    }
}

impl Content {
    /// Goes to the service, if it is a station or a session; else it comes back, with the code of why.
    pub fn give_to(self, service: &mut Service) -> Result<(), (u32, Content)>
        ensures gives { OnOk result (GivesTo self service.old service.new) }
        ensures refused { IfErr result (λ back. (back.1 ≡ self) × GiveRefusedBy back.0 self service.old service.new) }
    {
        match self {
            Content::Station(station) => match service.stations.push(station) {
                Ok(()) => Ok(()),
                Err(back) => Err((NO_MEMORY, Content::Station(back.value))),
            },
            Content::Session(session) => match service.sessions.push(session) {
                Ok(()) => Ok(()),
                Err(back) => Err((NO_MEMORY, Content::Session(back.value))),
            },
            other => Err((WRONG_HANDLE, other)),
        }
    }

    /// The journal of the service's run, or the code of why there is none.
    pub fn journal(self, alloc: Global) -> Result<Content, u32>
        requires service { stands_for_service self ≡ true }
        requires whole { IsWholeService self }
        ensures journal { IfOk result (λ journal. JournalIsOf self journal) }
        ensures refused { IfErr result (λ code. (code ≢ WRONG_HANDLE) × FinishRefused code self) }
    {
        match self {
            Content::Service(service) => match service.finish(alloc) {
                Ok(journal) => Ok(Content::Journal(journal)),
                Err(FinishError::Forgotten) => Err(FORGOTTEN),
                Err(FinishError::TooMany) => Err(TOO_MANY),
                Err(FinishError::NoMemory) => Err(NO_MEMORY),
            },
            _ => unreachable!(),
        }
    }

    /// Whether it is a node in a process of its own.
    pub fn is_node(&self) -> bool
        ensures { IsTrue result ↔ StandsForNode self.now }
    {
        matches!(self, Content::Node(_))
    }

    /// The journal of the moves that the node made, or the code of why there is none.
    pub fn journal_of_node(self, alloc: Global) -> Result<Content, u32>
        requires { StandsForNode self }
        ensures journal { IfOk result (λ journal. NodeJournalIsOf self journal) }
        ensures refused { IfErr result (λ code. (code ≢ WRONG_HANDLE) × NodeNotFinished code self) }
    {
        match self {
            Content::Node(node) => match node.into_journal(alloc) {
                Ok(Some(journal)) => Ok(Content::Journal(journal)),
                Ok(None) => Err(FORGOTTEN),
                Err(_) => Err(NO_MEMORY),
            },
            _ => unreachable!(),
        }
    }
}
