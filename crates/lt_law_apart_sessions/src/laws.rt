ghost use Rattle.lt_law_apart_sessions.specs.ApartSessions.{ServedApart, HeldApart, ApartExclude, ApartInTurn};
ghost use Rattle.lt_law_apart_sessions.specs.SealedNodes.{CarriedIfSealed};

/// Sessions that lie with their nodes in different processes were served in one run; each reply that one of them
/// polled answers the command at its place; and locks of one set that two of them hold still don't conflict.
///
/// That letters were carried, which is asked of the nodes, holds where each frame that was taken in has the seal of
/// one that a node gave out, and no other frame with such a seal was taken in.
pub fn law_apart_sessions()
    ensures served { ServedApart }
    ensures turn { ApartInTurn }
    ensures held { HeldApart }
    ensures exclude { ApartExclude }
    ensures sealed { CarriedIfSealed }
{}
