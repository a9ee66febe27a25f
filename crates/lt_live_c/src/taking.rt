// What the calls on services do with what a handle stands for.
ghost use Rattle.std.specs.Prelude.{◌≡◌, IfErr, IfSome, IfNone, OnOk};
ghost use Rattle.lt_live_c.specs.Taking.{stands_for_service, TakesStation, TakesSession, IsNoStation, IsNoSession, HasStation, HasSession, GivesTheOther, GiveRefused};

use crate::code::{NOTHING, WRONG_HANDLE};
use crate::content::Content;
use lt_live::{Session, Station};

/// Why no station can be taken; none where there is one.
pub fn no_station(content: &Content) -> Option<u32>
    ensures some { IfSome result (λ code. IsNoStation code content.now) }
    ensures none { IfNone result (HasStation content.now) }
{
    match content {
        Content::Service(service) if service.stations.is_empty() => Some(NOTHING),
        Content::Service(_) => None,
        _ => Some(WRONG_HANDLE),
    }
}

/// Why no session can be taken; none where there is one.
pub fn no_session(content: &Content) -> Option<u32>
    ensures some { IfSome result (λ code. IsNoSession code content.now) }
    ensures none { IfNone result (HasSession content.now) }
{
    match content {
        Content::Service(service) if service.sessions.is_empty() => Some(NOTHING),
        Content::Service(_) => None,
        Content::Node(node) if node.sessions.is_empty() => Some(NOTHING),
        Content::Node(_) => None,
        _ => Some(WRONG_HANDLE),
    }
}

/// Takes the next station of the service, if it has one.
pub fn next_station(content: &mut Content) -> Option<Station>
    ensures takes { IfSome result (λ station. TakesStation station content.old content.new) }
    ensures none { IfNone result (HasStation content.old → ⊥) }
{
    match content {
        Content::Service(service) => service.next_station(),
        _ => None,
    }
}

/// Takes the next session of the service, or of the node, if it has one.
pub fn next_session(content: &mut Content) -> Option<Session>
    ensures takes { IfSome result (λ session. TakesSession session content.old content.new) }
    ensures none { IfNone result (HasSession content.old → ⊥) }
{
    match content {
        Content::Service(service) => service.next_session(),
        Content::Node(node) => node.next_session(),
        _ => None,
    }
}

/// Puts a station or a session behind those that the service has; else it comes back, with the code of why.
pub fn give_back(content: &mut Content, given: Content) -> Result<(), (u32, Content)>
    ensures gives { OnOk result (GivesTheOther given content.old content.new) }
    ensures refused { IfErr result (λ back. (back.1 ≡ given) × GiveRefused back.0 given content.old content.new) }
{
    match content {
        Content::Service(service) => given.give_to(service),
        _ => Err((WRONG_HANDLE, given)),
    }
}

pub fn stands_for_service(content: &Content) -> bool
    ensures { result ≡ stands_for_service content.now }
{
    matches!(content, Content::Service(_))
}
