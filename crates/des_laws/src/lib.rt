//! The laws of the simulation core, over definitions alone.
#![tactic(auto)]

ghost use Rattle.std.specs.Prelude.{ℕ, Bool};
ghost use Rattle.des_event.specs.declared.event.Event.{Event};
ghost use Rattle.des_model.specs.Machine.{Machine};
ghost use Rattle.des_model.specs.WellFormed.{IsWellFormedBy};
ghost use Rattle.des_laws.specs.Relay.{relay, any_state, has_node, RelayTrace};
ghost use Rattle.des_model.specs.Laws.{IsLaw, LegalIsPossible, PartRunsArePossible, EventsCloseAudits, WindowsCloseAudits, RunsAreUnique, PiecesMerge, EndsAreWhole, OthersKeepTheirStates, WindowsLeaveHistories, HistoriesMeet, CountsAreBounded, PendingMoves, WaitingMoves, PartsCommute, StepsRunParts, KeysAreDistinct, LegalIsAscending, LegalIsUnique, HistoryIsLegal, HistoryIsWhole, TraceGrows, OthersComeLater, WindowsCommute, LimitIsFound, PendingIsTheRest, NextIsFound, AuditsSeeAll, HorizonsMayOpen, WindowsAddPieces, SchedulesAgree, WindowsProgress};

/// No two events that are ever made have the same key.
pub fn keys_are_distinct<State, Body, Piece>()
    ensures { IsLaw State Body Piece KeysAreDistinct }
{}

/// A legal history is possible.
pub fn legal_is_possible<State, Body, Piece>()
    ensures { (m : Machine State Body Piece) → LegalIsPossible m }
{}

/// A legal history takes its events in the order of their keys.
pub fn legal_is_ascending<State, Body, Piece>()
    ensures { IsLaw State Body Piece LegalIsAscending }
{}

/// There is one run: a legal history is its beginning.
pub fn legal_is_unique<State, Body, Piece>()
    ensures { IsLaw State Body Piece LegalIsUnique }
{}

/// The beginning of the run is a legal history.
pub fn history_is_legal<State, Body, Piece>()
    ensures { (m : Machine State Body Piece) → HistoryIsLegal m }
{}

/// It has as many events as requested, or as many as there are.
pub fn history_is_whole<State, Body, Piece>()
    ensures { (m : Machine State Body Piece) → HistoryIsWhole m }
{}

/// What a run has output is never taken back.
pub fn trace_grows<State, Body, Piece>()
    ensures { (m : Machine State Body Piece) → TraceGrows m }
{}

/// What a node makes in a window for another node is due after it.
pub fn others_come_later<State, Body, Piece>()
    ensures { IsLaw State Body Piece OthersComeLater }
{}

/// Whatever the order of the steps, a closed window leaves what one event at a time leaves.
pub fn windows_commute<State, Body, Piece>()
    ensures { IsLaw State Body Piece WindowsCommute }
{}

/// Parts that run too many events show that the run has too many.
pub fn limit_is_found<State, Body, Piece>()
    ensures { IsLaw State Body Piece LimitIsFound }
{}

/// The pending events are those that were made and not taken.
pub fn pending_is_the_rest<State, Body, Piece>()
    ensures { IsLaw State Body Piece PendingIsTheRest }
{}

/// `next` finds the least pending event below the duration.
pub fn next_is_found<State, Body, Piece>()
    ensures { IsLaw State Body Piece NextIsFound }
{}

/// An audit that no event has reached sees the whole history.
pub fn audits_see_all<State, Body, Piece>()
    ensures { (m : Machine State Body Piece) → AuditsSeeAll m }
{}

/// An event closes the audits up to its time.
pub fn events_close_audits<State, Body, Piece>()
    ensures { (m : Machine State Body Piece) → EventsCloseAudits m }
{}

/// Each window may open up to its horizon.
pub fn horizons_may_open<State, Body, Piece>()
    ensures { IsLaw State Body Piece HorizonsMayOpen }
{}

/// A window adds the pieces of its events, after the audits that are due.
pub fn windows_add_pieces<State, Body, Piece>()
    ensures { IsLaw State Body Piece WindowsAddPieces }
{}

/// A window without an audit inside closes the audits up to its first time.
pub fn windows_close_audits<State, Body, Piece>()
    ensures { IsLaw State Body Piece WindowsCloseAudits }
{}

/// Whatever the division, the number of workers and the schedule, a run that ends is the one run.
pub fn schedules_agree<State, Body, Piece>()
    ensures { IsLaw State Body Piece SchedulesAgree }
{}

/// One list of worker numbers has one run.
pub fn runs_are_unique<State, Body, Piece>()
    ensures { (m : Machine State Body Piece) → RunsAreUnique m }
{}

/// Until a window is closed, some worker can take a step.
pub fn windows_progress<State, Body, Piece>()
    ensures { (m : Machine State Body Piece) → WindowsProgress m }
{}

/// What a part runs after a possible history is possible.
pub fn part_runs_are_possible<State, Body, Piece>()
    ensures { (m : Machine State Body Piece) → PartRunsArePossible m }
{}

/// Parts that were run independently leave what one event at a time leaves.
pub fn parts_commute<State, Body, Piece>()
    ensures { IsLaw State Body Piece PartsCommute }
{}

/// The workers' steps run each part independently.
pub fn steps_run_parts<State, Body, Piece>()
    ensures { (m : Machine State Body Piece) → StepsRunParts m }
{}

/// An event that is taken is no longer pending, and the events that it makes are.
pub fn pending_moves<State, Body, Piece>()
    ensures { IsLaw State Body Piece PendingMoves }
{}

/// The same at a part.
pub fn waiting_moves<State, Body, Piece>()
    ensures { IsLaw State Body Piece WaitingMoves }
{}

/// A window after the first events of the run leaves first events of the run again: as many more as
/// its parts ran.
pub fn windows_leave_histories<State, Body, Piece>()
    ensures { IsLaw State Body Piece WindowsLeaveHistories }
{}

/// What is required of the first states and events holds along each history.
pub fn histories_meet<State, Body, Piece>()
    ensures { (m : Machine State Body Piece) (sound : ℕ → State → Bool) (fit : Event Body → Bool) → IsWellFormedBy m sound fit → HistoriesMeet m sound fit }
{}

/// What an event adds to a measure of a state bounds it along a history.
pub fn counts_are_bounded<State, Body, Piece>()
    ensures { (m : Machine State Body Piece) (sound : ℕ → State → Bool) (fit : Event Body → Bool) → IsWellFormedBy m sound fit → CountsAreBounded m sound fit }
{}

/// The conditions can be met.
pub fn relay_is_well_formed()
    ensures well_formed { IsWellFormedBy relay any_state has_node }
    ensures trace { RelayTrace }
{}

/// What the parts add to the trace, put in key order, is what the window adds.
pub fn pieces_merge<State, Body, Piece>()
    ensures { IsLaw State Body Piece PiecesMerge }
{}

/// A legal history after which no event may follow is the whole run.
pub fn ends_are_whole<State, Body, Piece>()
    ensures { IsLaw State Body Piece EndsAreWhole }
{}

/// A node that is no event's target keeps its state.
pub fn others_keep_their_states<State, Body, Piece>()
    ensures { (m : Machine State Body Piece) → OthersKeepTheirStates m }
{}
