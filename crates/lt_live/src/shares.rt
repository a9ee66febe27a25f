// How many commands each session may submit.
ghost use Rattle.std.specs.Prelude.{◌≡◌, ◌≤◌};
ghost use Rattle.lt_spec.specs.declared.limits.TheConstants.{MAX_COMMANDS};
ghost use Rattle.lt_live.specs.Stations.{most_share, equal_share};

use lt_script::{MAX_COMMANDS, Script};
use lt_spec::MAX_COMMANDS_OF_SERVICE;

/// The most commands that each session may submit in its life: all together no more than a service may have.
#[tactic(auto, using(crate::proofs::EqualShares::none_of))]
pub fn most_share(script: &Script) -> u64
    ensures { result ≡ most_share script.now }
{
    if script.clients() == 0 {
        return 0;
    }
    MAX_COMMANDS_OF_SERVICE / u64::from(script.clients())
}

/// The most where all together are no more than the text of a script may have, so that `finish` can always tell their run.
#[tactic(auto, using(crate::proofs::EqualShares::none_of, crate::proofs::EqualShares::equal_few, crate::proofs::EqualShares::equal_within))]
pub fn equal_share(script: &Script) -> u32
    ensures share { result ≡ equal_share script.now }
    ensures few { result ≤ MAX_COMMANDS }
    ensures within { result ≤ most_share script.now }
{
    if script.clients() == 0 {
        return 0;
    }
    MAX_COMMANDS / u32::from(script.clients())
}
