ghost use Rattle.lt_law_apart.specs.Apart.{ApartJoin, ApartRun, ApartScript, NumberedArePrefix, ApartReplies, ApartLettersFit};

/// Nodes of which each used a first part of what was brought to it from each other one, where that is a first part of
/// what the other one gave out for it, have made one run together, by the rules of the script with the commands of
/// all. In it each node's moves are those of its log, and after it each node is as it is now; and each letter that
/// was sent and not used fits its receiver.
pub fn law_apart()
    ensures join { ApartJoin }
    ensures run { ApartRun }
    ensures script { ApartScript }
    ensures numbered { NumberedArePrefix }
    ensures replies { ApartReplies }
    ensures fit { ApartLettersFit }
{}
