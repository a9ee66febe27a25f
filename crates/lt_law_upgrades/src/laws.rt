ghost use Rattle.lt_law_upgrades.specs.UpgradeLaws.{UpgradingFinish, UpgradingRelease, HolderHasDesk, ChangeIsNext, NoVoidChange, OrderedIsUpgrading, UpgradeInTurnRow, ReadToUpgradeRow, ChangedWhileLaterRow, TriedAgainRow, ChangedTwiceRow, GivenUpChangeRow};

/// A run of a script whose clients ask for sets in the order of their ranks, and change locks that exclude themselves,
/// has no waiting client at rest, and nothing is held then. Meanwhile the desk stays where such a lock is held, and a
/// change is served next. An ordered script is one of these.
///
/// A `withdraw` may stand anywhere. Where it may give up a change, the old lock is to be released as well as the new one; a
/// change that is given up is gone in the same move.
pub fn law_upgrades()
    ensures finish { UpgradingFinish }
    ensures release { UpgradingRelease }
    ensures desk { HolderHasDesk }
    ensures next { ChangeIsNext }
    ensures void { NoVoidChange }
    ensures ordered { OrderedIsUpgrading }
{}

/// Small scripts, and whether each of their clients asks and changes in order.
#[tactic(auto, unfolding(lt_modes::specs::Modes::conflicts))]
pub fn law_upgrade_rows()
    ensures upgrade_in_turn { UpgradeInTurnRow }
    ensures read_to_upgrade { ReadToUpgradeRow }
    ensures changed_while_later { ChangedWhileLaterRow }
    ensures tried_again { TriedAgainRow }
    ensures changed_twice { ChangedTwiceRow }
    ensures given_up_change { GivenUpChangeRow }
{}
