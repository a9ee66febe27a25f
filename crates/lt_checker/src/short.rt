ghost use Rattle.std.specs.Prelude.{◌↔◌, IsTrue};
ghost use Rattle.lt_spec.specs.Script.{IsShort};

use lt_script::Script;
use lt_spec::{MAX_COMMANDS, MAX_SETS};

/// Whether the script has no more sets and no more commands than a text may have.
pub(crate) fn is_short(script: &Script) -> bool
    ensures { IsTrue result ↔ IsShort script.now }
{
    script.sets() <= MAX_SETS && script.commands() <= u64::from(MAX_COMMANDS)
}
