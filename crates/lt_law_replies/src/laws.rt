ghost use Rattle.lt_law_replies.specs.ReplyLaws.{RepliesInTurn, LogInTurn, OneReplyEach, UnansweredWait, AsksAnswerNext, AnswersToOne, NothingHeld, DropsReplied, TriesReplied, ChangeReplied, LastUnanswered, GivenUpReplied};

/// Each reply to a client answers the command at the same place among its commands, and each command that the client
/// has made has its reply, but for the last one of a client that waits.
pub fn law_replies()
    ensures turn { RepliesInTurn }
    ensures log { LogInTurn }
    ensures each { OneReplyEach }
    ensures unanswered { UnansweredWait }
    ensures next { AsksAnswerNext }
{}

/// Lines that answer a command, and the replies in small runs.
pub fn law_reply_rows()
    ensures answers { AnswersToOne }
    ensures nothing_held { NothingHeld }
    ensures drops { DropsReplied }
    ensures tries { TriesReplied }
    ensures change { ChangeReplied }
    ensures last { LastUnanswered }
    ensures given_up { GivenUpReplied }
{}
