ghost use Rattle.lt_law_sound.specs.SoundLaws.{CommandsKeepSound, TakesKeepSound, SoundAtStart, SoundInWorlds, RoomForCommands, RoomForTakes, OwnMovesKeepSound, OwnMovesHaveRoom};

/// A node is sound at the start, and each of its moves keeps it so: a command of a client of it that has one left, and
/// waits for nothing or gives up by it what it waits for, and the take of any letter that fits. So it is after any list
/// of such moves, whatever other nodes do. And in a world that has the invariant each node is sound.
pub fn law_sound_kept()
    ensures start { SoundAtStart }
    ensures commands { CommandsKeepSound }
    ensures takes { TakesKeepSound }
    ensures moves { OwnMovesKeepSound }
    ensures worlds { SoundInWorlds }
{}

/// A sound node of a script within its limits, whose clients made no more commands than they have, keeps what leaves
/// room for the next command of a client that can make one, and for each letter that fits: so after any list of its own
/// moves.
pub fn law_sound_has_room()
    ensures commands { RoomForCommands }
    ensures takes { RoomForTakes }
    ensures moves { OwnMovesHaveRoom }
{}
