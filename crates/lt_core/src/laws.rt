// The laws on room: how many letters and lines a move makes at most, and what suffices for a move.
ghost use Rattle.lt_core.specs.Bound.{EndsFit, CommandsFit, TakesFit};
ghost use Rattle.lt_core.specs.CoreData.{MovesHaveRoom};

/// So many places suffice for the letters and the event lines of a move.
pub fn law_room_to_send()
    ensures ends { EndsFit }
    ensures commands { CommandsFit }
    ensures takes { TakesFit }
{}

/// In a sound set, memory and a bound on its locks are all that a move needs.
pub fn law_room_to_move()
    ensures { MovesHaveRoom }
{}
