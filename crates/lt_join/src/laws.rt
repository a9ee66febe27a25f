ghost use Rattle.lt_join.specs.JoinLaws.{PartsAreWritten, PartsAreRead, JoinsToRun, JoinedIsAccepted, JoinRefuses};
ghost use Rattle.lt_join.specs.JoinRows.{JoinRows};

/// What is joined of the texts that all nodes of a run wrote, each in a process of its own, is the text of that run:
/// the script with the commands of all, and the journal of their moves in order of their stamps. A checker accepts it
/// where the run is at rest. Of texts from which one is missing, or that are not those of all nodes of one script,
/// nothing is joined.
pub fn law_join()
    ensures written { PartsAreWritten }
    ensures parts { PartsAreRead }
    ensures text { JoinsToRun }
    ensures accepted { JoinedIsAccepted }
    ensures refused { JoinRefuses }
    ensures worked { JoinRows }
{}
