ghost use Rattle.std.specs.Prelude.{◌≡◌, ◌≤◌, ◌↔◌, ◌++◌, ℕ, List, Some, Ok, Err, fold, map, take, drop, length, Decides, ◌<◌, ◌^◌, Option};
ghost use Rattle.std.specs.List.{flat_map, AllByRecursion};
ghost use Rattle.std.specs.Str.{bytes_eq};
ghost use Rattle.lt_journal.specs.declared.line.Line.{Line as AnyLine};
ghost use Rattle.lt_journal.specs.LineFits.{FitsLine, FitsCut};
ghost use Rattle.lt_modes.specs.Script.{ScriptData};
ghost use Rattle.lt_spec.specs.World.{Logged, IsRun};
ghost use Rattle.lt_text.specs.Text.{lines};
ghost use Rattle.lt_spec.specs.Script.{IsScript, IsShort};
ghost use Rattle.lt_law_journals.specs.Checking.{Place, written, reader_after, checked, Feed, new_feed, fed_piece, ended, checked_said, script_in, journal_in, lines_before, counted_from, checked_input, IsFirstBadIn, EndsInLineFeed, EndsLine, HasJournal, IsSettled, IsFinished, BeginsWith, IsBeginning, BeginsJournal, IsFirstBad, IsContinued, journal_lines};
ghost use Rattle.lt_law_journals.specs.Rows.{EmptyRows, ShortRows};
ghost use Rattle.lt_journal.specs.Grammar.{read_line, journal_of};
ghost use Rattle.lt_journal.specs.Split.{input_parts};
ghost use Rattle.lt_journal.specs.RunLines.{run_lines, text_of};
ghost use Rattle.lt_law_journals.specs.ClosingLaws.{HeldLinesTell, WaitingLinesTell, OwnerLinesTell};

/// The journal of a finished run is accepted, as that of this run.
pub fn law_accepts()
    ensures { (script : ScriptData) → (run : List Logged) → IsScript script → IsShort script → IsFinished script run
        → checked script (journal_lines script run) ≡ Ok run }
{}

/// Lines that are accepted are those of the text of a finished run.
pub fn law_means()
    ensures { (script : ScriptData) → (all : List (List ℕ)) → (run : List Logged) → IsScript script → IsShort script
        → checked script all ≡ Ok run → IsFinished script run × (all ≡ journal_lines script run) }
{}

/// Lines are refused at the first bad one, and it stays the first bad one whatever follows it.
pub fn law_first()
    ensures exact { (script : ScriptData) → (all : List (List ℕ)) → (k : ℕ) → IsScript script → IsShort script
        → (checked script all ≡ Err k) ↔ IsFirstBad script all k }
    ensures stays { (script : ScriptData) → (all : List (List ℕ)) → (k : ℕ)
        → checked script all ≡ Err k → k ≤ length all
        → (more : List (List ℕ)) → checked script (take k all ++ more) ≡ Err k }
{}

/// Lines that are right so far go on to a journal exactly where the moves so far go on to a finished run.
pub fn law_continues()
    ensures { (script : ScriptData) → (read : List (List ℕ)) → (place : Place) → IsScript script → IsShort script
        → (reader_after script read).place ≡ Some place → IsContinued script read place }
{}

/// Bytes that are fed one by one are answered as the lines of all bytes, and at most 201 bytes are kept.
pub fn law_bytes()
    ensures all { (script : ScriptData) → (bytes : List ℕ) → IsScript script → IsShort script
        → ended script (fed_piece script (new_feed script) bytes) ≡ checked script (lines bytes) }
    ensures kept { (script : ScriptData) → (bytes : List ℕ)
        → length (fed_piece script (new_feed script) bytes).rest ≤ 201 }
{}

/// Pieces that are fed one after the other are fed as all their bytes.
pub fn law_pieces()
    ensures { (script : ScriptData) → (feed : Feed) → (pieces : List (List ℕ))
        → fold (fed_piece script) feed pieces ≡ fed_piece script feed (flat_map (λ (piece : List ℕ). piece) pieces) }
{}

/// Small journals are answered so.
pub fn law_rows()
    ensures empty { EmptyRows }
    ensures short { ShortRows }
{}

/// What the lines say is all that counts of them. A line that is due fits, and a line is written as it exactly where it says the same.
pub fn law_said()
    ensures all { (script : ScriptData) → (all : List (List ℕ)) → IsScript script → IsShort script
        → checked_said script (map (read_line script) all) ≡ checked script all }
    ensures due { (script : ScriptData) → (read : List (List ℕ)) → (place : Place) → IsScript script → IsShort script
        → (reader_after script read).place ≡ Some place → AllByRecursion (FitsLine script) place.due }
    ensures same { (script : ScriptData) → (line : List ℕ) → (x : AnyLine) → IsScript script → FitsLine script x
        → Decides (bytes_eq line (written script x)) (read_line script line ≡ x) }
{}

/// An input is split into the lines before its first line `journal` and those after it, and the lines before the journal are counted.
/// The journal's bytes are fed, and the bad line is named by its number in the whole input.
pub fn law_input()
    ensures script { (bytes : List ℕ) → lines (take (input_parts bytes).script bytes) ≡ script_in (lines bytes) }
    ensures journal { (bytes : List ℕ) → lines (drop (input_parts bytes).journal bytes) ≡ journal_in (lines bytes) }
    ensures before { (bytes : List ℕ) → (input_parts bytes).lines ≡ lines_before (lines bytes) }
    ensures answer { (script : ScriptData) → (bytes : List ℕ) → IsScript script → IsShort script
        → counted_from (input_parts bytes).lines (ended script (fed_piece script (new_feed script) (drop (input_parts bytes).journal bytes)))
        ≡ checked_input script (lines bytes) }
{}

/// An input is accepted exactly where the journal in it is that of a finished run, and refused exactly at its first bad
/// line.
pub fn law_answers()
    ensures accepted { (script : ScriptData) → (bytes : List ℕ) → (run : List Logged) → IsScript script → IsShort script
        → (checked_input script (lines bytes) ≡ Ok run)
        ↔ (IsFinished script run × (lines (drop (input_parts bytes).journal bytes) ≡ journal_lines script run)) }
    ensures refused { (script : ScriptData) → (bytes : List ℕ) → (line : ℕ) → IsScript script → IsShort script
        → (checked_input script (lines bytes) ≡ Err line) ↔ IsFirstBadIn script line bytes }
{}

/// Once the line `journal` has come with its line end, an input is cut where it is, whatever comes after.
pub fn law_settled()
    ensures { (before : List ℕ) → (line : List ℕ) → (rest : List ℕ) → EndsLine before → EndsInLineFeed line
        → HasJournal line → IsSettled ((before ++ line) ++ rest) }
{}

/// Two finished runs of a script with the same journal are one run.
pub fn law_one_run()
    ensures { (script : ScriptData) → (one : List Logged) → (other : List Logged) → IsScript script → IsShort script
        → IsFinished script one → IsFinished script other → journal_lines script one ≡ journal_lines script other → one ≡ other }
{}

/// None of some lines is bad exactly where they are the first ones of a run, and exactly then a journal begins with
/// them.
pub fn law_beginning()
    ensures read { (script : ScriptData) → (read : List (List ℕ)) → (place : Place) → IsScript script
        → (reader_after script read).place ≡ Some place → BeginsWith script read place }
    ensures begun { (script : ScriptData) → (read : List (List ℕ)) → IsScript script → IsShort script
        → IsBeginning script read → (place : Place) × ((reader_after script read).place ≡ Some place) }
    ensures journal { (script : ScriptData) → (read : List (List ℕ)) → IsScript script → IsShort script
        → IsBeginning script read ↔ BeginsJournal script read }
{}

/// What is written of a run is read as the run's lines, of every run whose moves can be counted in a line.
pub fn law_read_text()
    ensures { (script : ScriptData) → (entries : List Logged) → (cut : Option ℕ) → IsScript script
        → IsRun script entries → length entries < 2 ^ 64 → FitsCut script cut
        → journal_of script (text_of script entries cut) ≡ run_lines script entries cut }
{}

/// The lines at rest of a run: the locks that the nodes hold, the clients whose asks are unanswered, and the last
/// move of each set's token.
pub fn law_closing_lines()
    ensures held { HeldLinesTell }
    ensures waiting { WaitingLinesTell }
    ensures owners { OwnerLinesTell }
{}
