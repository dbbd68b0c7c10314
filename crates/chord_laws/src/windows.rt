//! Laws of the simulated world: its windows, and whole runs by windows.

ghost use Rattle.chord_machine.specs.Chord.{chord};
ghost use Rattle.des_model.specs.Laws.{HorizonsMayOpen, LimitIsFound, OthersComeLater, PartRunsArePossible, PartsCommute, PiecesMerge, RunsAreUnique, SchedulesAgree, StepsRunParts, WaitingMoves, WindowsAddPieces, WindowsCloseAudits, WindowsCommute, WindowsLeaveHistories, WindowsProgress};
ghost use Rattle.chord_scenario.specs.declared.scenario.Scenario.{Scenario};
ghost use Rattle.chord_scenario.specs.Range.{IsInRange};

/// A window may open up to its horizon, and no audit lies inside.
pub fn horizons_may_open()
    ensures { (sc : Scenario) → IsInRange sc → HorizonsMayOpen (chord sc) }
{}

/// What a part runs after a possible history is possible.
pub fn part_runs_are_possible()
    ensures { (sc : Scenario) → IsInRange sc → PartRunsArePossible (chord sc) }
{}

/// What a node makes in a window for another node is due after it.
pub fn others_come_later()
    ensures { (sc : Scenario) → IsInRange sc → OthersComeLater (chord sc) }
{}

/// An event that a part ran no longer waits there, and what it made for the part below the horizon
/// does.
pub fn waiting_moves()
    ensures { (sc : Scenario) → IsInRange sc → WaitingMoves (chord sc) }
{}

/// Parts that were run independently leave what one event at a time leaves.
pub fn parts_commute()
    ensures { (sc : Scenario) → IsInRange sc → PartsCommute (chord sc) }
{}

/// The workers' steps run each part independently.
pub fn steps_run_parts()
    ensures { (sc : Scenario) → IsInRange sc → StepsRunParts (chord sc) }
{}

/// Whatever the order of the steps, a closed window leaves what one event at a time leaves.
pub fn windows_commute()
    ensures { (sc : Scenario) → IsInRange sc → WindowsCommute (chord sc) }
{}

/// A window after the first events of the run leaves first events of the run again: as many more as
/// its parts ran.
pub fn windows_leave_histories()
    ensures { (sc : Scenario) → IsInRange sc → WindowsLeaveHistories (chord sc) }
{}

/// Parts that run too many events show that the run has too many.
pub fn limit_is_found()
    ensures { (sc : Scenario) → IsInRange sc → LimitIsFound (chord sc) }
{}

/// A window adds the pieces of its events, after the audits that are due.
pub fn windows_add_pieces()
    ensures { (sc : Scenario) → IsInRange sc → WindowsAddPieces (chord sc) }
{}

/// A window without an audit inside closes the audits up to its first time.
pub fn windows_close_audits()
    ensures { (sc : Scenario) → IsInRange sc → WindowsCloseAudits (chord sc) }
{}

/// What the parts add to the trace, put in key order, is what the window adds.
pub fn pieces_merge()
    ensures { (sc : Scenario) → IsInRange sc → PiecesMerge (chord sc) }
{}

/// Whatever the division, the number of workers and the schedule, a run that ends is the one run.
pub fn schedules_agree()
    ensures { (sc : Scenario) → IsInRange sc → SchedulesAgree (chord sc) }
{}

/// One list of worker numbers has one run.
pub fn runs_are_unique()
    ensures { (sc : Scenario) → IsInRange sc → RunsAreUnique (chord sc) }
{}

/// Until a window is closed, some worker can take a step.
pub fn windows_progress()
    ensures { (sc : Scenario) → IsInRange sc → WindowsProgress (chord sc) }
{}
