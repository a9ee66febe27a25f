ghost use Rattle.std.specs.Prelude.{◌≡◌, ℕ, Ok, IsTrue};
ghost use Rattle.lt_spec.specs.Script.{IsScript, IsShort};
ghost use Rattle.lt_script.specs.Printing.{print_of};
ghost use Rattle.lt_script.specs.Reading.{read_of};
ghost use Rattle.lt_gen.specs.Sizes.{can_make};
ghost use Rattle.lt_gen.specs.Generator.{HasSizes, script_of};

use lt_script::law_print;

/// What the generator makes is a script of the version and the sizes that were asked: it keeps all limits, and its text
/// has no fault and is read as it.
pub fn law_generated()
    ensures script { (version nodes clients commands seed : ℕ) → IsTrue (can_make version nodes clients commands)
        → IsScript (script_of version nodes clients commands seed) }
    ensures short { (version nodes clients commands seed : ℕ) → IsTrue (can_make version nodes clients commands)
        → IsShort (script_of version nodes clients commands seed) }
    ensures version { (version nodes clients commands seed : ℕ)
        → (script_of version nodes clients commands seed).version ≡ version }
    ensures sizes { (version nodes clients commands seed : ℕ)
        → HasSizes nodes 4 clients commands (script_of version nodes clients commands seed) }
    ensures read_back { (version nodes clients commands seed : ℕ) → IsTrue (can_make version nodes clients commands)
        → read_of (print_of (script_of version nodes clients commands seed))
        ≡ Ok (script_of version nodes clients commands seed) }
{
    law_print();
}
