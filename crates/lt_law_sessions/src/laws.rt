ghost use Rattle.lt_law_sessions.specs.SessionLaws.{StillIsHeld, SessionsExclude, GrantedIsHad, HadUnlessTaken, HadAsBefore};
ghost use Rattle.lt_law_sessions.specs.HeldStill.{TakingRows, LeavingRows, OthersTakeNothing, TriedIsHad};
ghost use Rattle.lt_law_sessions.specs.HeldStill.{ChangedIsHad, HeldBesideOthers, GrantedExclude, ReplyRows};

/// Locks of one set that two clients hold still, by what was submitted and polled at all sessions, don't conflict.
///
/// It reads the lists of the sessions alone: a lock was granted, and nothing was submitted since that may take it away.
pub fn law_sessions_exclude()
    ensures held { StillIsHeld }
    ensures exclude { SessionsExclude }
    ensures granted { GrantedIsHad }
    ensures kept { HadUnlessTaken }
    ensures as_before { HadAsBefore }
{}

/// When a lock is held still: by the reply that gives it, and by rows of what each command takes, whoever submits it.
///
/// Of `exclude` a corollary that speaks of grants alone: of locks that were granted and not given up since, where nobody
/// dropped.
pub fn law_held_still()
    ensures taking { TakingRows }
    ensures leaving { LeavingRows }
    ensures others { OthersTakeNothing }
    ensures tried { TriedIsHad }
    ensures changed { ChangedIsHad }
    ensures beside { HeldBesideOthers }
    ensures granted { GrantedExclude }
    ensures replies { ReplyRows }
{}
