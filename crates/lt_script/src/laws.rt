ghost use Rattle.std.specs.Prelude.{◌≡◌, ℕ, List, Ok};
ghost use Rattle.lt_modes.specs.Script.{ScriptData};
ghost use Rattle.lt_spec.specs.Script.{IsScript, IsShort};
ghost use Rattle.lt_script.specs.Printing.{print_of};
ghost use Rattle.lt_script.specs.Reading.{read_of, LeastIsTold, FirstIsTold, LimitsAre, ReservedAre, NumbersAre, FormsAre, LaterFormsAre};

/// The text of a script, with no more sets and commands than a text may have, is read as that script.
pub fn law_print()
    ensures { (s : ScriptData) → IsScript s → IsShort s → read_of (print_of s) ≡ Ok s }
{}

/// A script that is read has no more sets and no more commands than a text may have.
pub fn law_read_is_short()
    ensures { (bytes : List ℕ) (s : ScriptData) → read_of bytes ≡ Ok s → IsShort s }
{}

/// Each fault of a line has a test of its own, and of those that hold the one with the least number is told. What is
/// told of a text is the first line that has a fault, with that fault; of one without a line `nodes` a line more.
pub fn law_faults()
    ensures line { LeastIsTold }
    ensures text { FirstIsTold }
{}

/// What the limits, the reserved words, the faults' numbers and the words of the forms are.
pub fn law_literals()
    ensures limits { LimitsAre }
    ensures reserved { ReservedAre }
    ensures numbers { NumbersAre }
    ensures forms { (version : ℕ) → FormsAre version }
    ensures later_forms { LaterFormsAre }
{}
