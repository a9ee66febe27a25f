ghost use Rattle.lt_law_opened.specs.PromiseOpened.{HeldLocksAgree, HeldIsTold, TokensAreOne, AsksAreOnce, OpenWaitsAreTold, LinesTellWhether, FirstIsBarred, AsksLedAtRest, HoldersAreTold, MovesEndServed, MovesServeInTurn, TriesTellOwn};
ghost use Rattle.lt_law_opened.specs.WaitsOpened.{EndedIsIdle, EndedHasNone, IdleHasEnded, HolderConflicts, ConflictHoldsUp, RingIsOfScript};

/// Each part of the promise of a run in words of the run, its lines and its worlds alone.
pub fn law_promise_opened()
    ensures lawful { HeldLocksAgree }
    ensures held { HeldIsTold }
    ensures one_token { TokensAreOne }
    ensures one_place { AsksAreOnce }
    ensures waits { OpenWaitsAreTold }
    ensures somebody { LinesTellWhether }
    ensures first { FirstIsBarred }
    ensures led { AsksLedAtRest }
    ensures frozen { HoldersAreTold }
    ensures ends { MovesEndServed }
    ensures in_turn { MovesServeInTurn }
    ensures tries { TriesTellOwn }
{}

/// What it says of a client that it has ended, or that it holds another one up.
pub fn law_waits_opened()
    ensures idle { EndedIsIdle }
    ensures no_command { EndedHasNone }
    ensures ended { IdleHasEnded }
    ensures holds { HolderConflicts }
    ensures held_up { ConflictHoldsUp }
    ensures ring { RingIsOfScript }
{}
