//! Laws of the judgement.
ghost use Rattle.std.specs.List.{All};
ghost use Rattle.std.specs.Prelude.{◌≡◌, ◌↔◌, ℕ, ◌^◌, ◌<◌, ◌++◌, Bool, List, codes, count_by, length, true};
ghost use Rattle.chord_judge.specs.Judged.{is_begin, judged};
ghost use Rattle.chord_event.specs.declared.line.Line.{Line};
ghost use Rattle.chord_judge.specs.Owners.{IsRightOwner, is_right_owner};
ghost use Rattle.chord_judge.specs.Reading.{said};
ghost use Rattle.chord_judge.specs.Table.{heading, rows_text};
ghost use Rattle.chord_judge.specs.Traces.{IsReadable, table_text};
ghost use Rattle.chord_judge.specs.Written.{HasPlainNames, IsWritable, IsWritableBlock, saying, told_of};
ghost use Rattle.chord_judge.specs.declared.told.Told.{Told};
ghost use Rattle.chord_scenario.specs.Accepted.{Accepts};
ghost use Rattle.chord_scenario.specs.Range.{IsInRange};
ghost use Rattle.chord_scenario.specs.Setup.{Setup};
ghost use Rattle.chord_scenario.specs.World.{node_count};
ghost use Rattle.chord_trace.specs.Pieces.{blocks_of};
ghost use Rattle.chord_trace.specs.Texts.{line_text, pieces_text};
ghost use Rattle.chord_trace.specs.declared.piece.Piece.{Piece};

/// A key has at most one right owner.
pub fn right_owners_are_unique()
    ensures { (sc : Setup) → IsInRange sc → (member : ℕ → Bool) (key x y : ℕ) → key < 2 ^ sc.bits → IsRightOwner sc member key x → IsRightOwner sc member key y → y ≡ x }
{}

/// The test of a right owner is true of just the right owner.
pub fn right_owners_pass_the_test_alone()
    ensures { (sc : Setup) (member : ℕ → Bool) (key node : ℕ) → node < node_count sc → (is_right_owner sc member key node ≡ true) ↔ IsRightOwner sc member key node }
{}

/// There are as many rows as lookups.
pub fn each_lookup_has_a_row()
    ensures { (sc : Setup) (lines : List Told) → length (judged sc lines) ≡ count_by is_begin lines }
{}

/// The text of a line that a run writes is read as that line if a judge is to be told it, and
/// otherwise as a line of another kind.
pub fn lines_are_read_as_written()
    ensures { (sc : Setup) → IsInRange sc → HasPlainNames sc → (time node : ℕ) (line : Line) (text : List ℕ) → IsWritable sc time node line → line_text sc time node line ≡ text ++ codes "\n" → said sc text ≡ saying time node line }
{}

/// Each line of the trace of a run is readable.
pub fn traces_are_readable()
    ensures { (sc : Setup) → IsInRange sc → HasPlainNames sc → (pieces : List Piece) → All (IsWritableBlock sc) (blocks_of pieces) → IsReadable sc (pieces_text sc pieces) }
{}

/// The table of the trace of a run is that of the lines of the run.
pub fn traces_are_judged_as_written()
    ensures { (sc : Setup) → IsInRange sc → HasPlainNames sc → (pieces : List Piece) → All (IsWritableBlock sc) (blocks_of pieces) → table_text sc (pieces_text sc pieces) ≡ heading ++ rows_text sc (judged sc (told_of pieces)) }
{}

/// The names of the nodes of an accepted scenario are plain.
pub fn accepted_scenarios_have_plain_names()
    ensures { (toml csv : List ℕ) (sc : Setup) → Accepts toml csv sc → HasPlainNames sc }
{}

/// The table of the trace of a run of an accepted scenario is that of the lines of the run.
pub fn accepted_runs_are_judged_as_written()
    ensures { (toml csv : List ℕ) (sc : Setup) → Accepts toml csv sc → (pieces : List Piece) → All (IsWritableBlock sc) (blocks_of pieces) → table_text sc (pieces_text sc pieces) ≡ heading ++ rows_text sc (judged sc (told_of pieces)) }
{}
