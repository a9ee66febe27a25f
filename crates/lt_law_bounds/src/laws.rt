ghost use Rattle.lt_law_bounds.specs.Bounds.{TokensByCommands, WeighsByCommands, WeighsAtMost, MovesByCommands};

/// What the numbers of `law_ends` come to, of any script.
pub fn law_most_moves()
    ensures tokens { TokensByCommands }
    ensures weight { WeighsByCommands }
    ensures bound { WeighsAtMost }
    ensures moves { MovesByCommands }
{}
