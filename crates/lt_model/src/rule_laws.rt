ghost use Rattle.lt_model.specs.AccountRules.{GrantsByRule, FrozenIsNotGranted, CommandsAreSteps, ServesByRule, ServicesAreSteps, CopiesAreDelivered, TellsAreApplied, TellsAreMade, HandingOverSettles, TokensArrive, FreezesAreSteps, OthersChangeNothing, RulesCount};
ghost use Rattle.lt_model.specs.NewsRules.{FreezingIsSteps, FreezesAreTaken, DesksComeAndGo};
ghost use Rattle.lt_model.specs.OnWay.{TellsAreOnWay, CopiesAreOnWay, FreezesAreOnWay};

/// Rules of a node are steps of accounts: what a rule tests of modes is what its step asks of them, and what it changes is
/// the step. What a rule sends is not read: tells and copies on their way are arguments.
pub fn law_account_rules()
    ensures grants { GrantsByRule }
    ensures frozen { FrozenIsNotGranted }
    ensures commands { CommandsAreSteps }
    ensures serves { ServesByRule }
    ensures services { ServicesAreSteps }
    ensures delivers { CopiesAreDelivered }
    ensures applies { TellsAreApplied }
    ensures tells { TellsAreMade }
    ensures settles { HandingOverSettles }
    ensures arrives { TokensArrive }
    ensures freezes { FreezesAreSteps }
    ensures nothing { OthersChangeNothing }
    ensures counts { RulesCount }
{}

/// Rules of a node are steps of news: what a rule changes is the step. What a rule sends is not read: freezes on their way are
/// arguments.
pub fn law_news_rules()
    ensures freezes { FreezingIsSteps }
    ensures takes { FreezesAreTaken }
    ensures desk { DesksComeAndGo }
{}

/// The tells, copies and freezes that are gathered for a node are those in letters on their way and in parked letters.
pub fn law_on_way()
    ensures tells { TellsAreOnWay }
    ensures copies { CopiesAreOnWay }
    ensures freezes { FreezesAreOnWay }
{}
