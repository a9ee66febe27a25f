ghost use Rattle.std.specs.Prelude.{◌≡◌, ◌<◌, ◌^◌, ◌∷◌, ℕ, List, Some};
ghost use Rattle.std.specs.List.{AllByRecursion};
ghost use Rattle.std.specs.Fmt.{decimal};
ghost use Rattle.lt_text.specs.Text.{lines, text, words, fields, spaced, IsLine, IsWord, IsField};
ghost use Rattle.lt_text.specs.Number.{number, exact_number};

/// The lines of a text are those that it was written from.
pub fn law_lines()
    ensures { (of : List (List ℕ)) → AllByRecursion IsLine of → lines (text of) ≡ of }
{}

/// The words of a line are those that it was written from.
pub fn law_words()
    ensures { (of : List (List ℕ)) → AllByRecursion IsWord of → words (spaced of) ≡ of }
{}

/// The fields of a line are those that it was written from, and the line is written so from its fields.
pub fn law_fields()
    ensures read { (first : List ℕ) → (later : List (List ℕ)) → AllByRecursion IsField (first ∷ later)
        → fields (spaced (first ∷ later)) ≡ first ∷ later }
    ensures written { (line : List ℕ) → spaced (fields line) ≡ line }
{}

/// A number below 10^9 that is written is read back.
pub fn law_number()
    ensures { (n : ℕ) → n < 10 ^ 9 → number (decimal n) ≡ Some n }
{}

/// A number below 2^64 that is written is read back.
pub fn law_exact_number()
    ensures { (n : ℕ) → n < 2 ^ 64 → exact_number (decimal n) ≡ Some n }
{}
