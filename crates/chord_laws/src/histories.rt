//! Laws of the simulated world: its histories, its states and its trace.

ghost use Rattle.chord_laws.specs.Accounts.{LookupsAreAccountedFor, ReportsAddUp, UnfinishedAreUnended};
ghost use Rattle.chord_machine.specs.Chord.{chord};
ghost use Rattle.chord_machine.specs.AuditTimes.{AreAuditsInTime};
ghost use Rattle.chord_laws.specs.Ends.{LookupsAreInTime, LookupsAreShort, LookupsTakeAtMost, NoneLastsLonger};
ghost use Rattle.chord_laws.specs.Ongoing.{RetriesAreLimited, CallsAreTimed, JoinsGoOn, TimersLive};
ghost use Rattle.chord_machine.specs.Room.{RoomIsLeft};
ghost use Rattle.chord_machine.specs.Sound.{HistoriesAreSound};
ghost use Rattle.des_model.specs.Laws.{AuditsSeeAll, EndsAreWhole, EventsCloseAudits, HistoryIsLegal, HistoryIsWhole, KeysAreDistinct, LegalIsAscending, LegalIsPossible, LegalIsUnique, NextIsFound, OthersKeepTheirStates, PendingIsTheRest, PendingMoves, TraceGrows};
ghost use Rattle.chord_scenario.specs.declared.scenario.Scenario.{Scenario};
ghost use Rattle.chord_scenario.specs.Range.{IsInRange};

/// No two events that are ever made have the same key.
pub fn keys_are_distinct()
    ensures { (sc : Scenario) → IsInRange sc → KeysAreDistinct (chord sc) }
{}

/// The pending events are those that were made and not taken.
pub fn pending_is_the_rest()
    ensures { (sc : Scenario) → IsInRange sc → PendingIsTheRest (chord sc) }
{}

/// An event that is taken is no longer pending, and the events that it makes are.
pub fn pending_moves()
    ensures { (sc : Scenario) → IsInRange sc → PendingMoves (chord sc) }
{}

/// `next` finds the least pending event below the duration.
pub fn next_is_found()
    ensures { (sc : Scenario) → IsInRange sc → NextIsFound (chord sc) }
{}

/// Each state meets the invariant of its node, and each event is sound, in whatever order events are taken.
pub fn histories_are_sound()
    ensures { (sc : Scenario) → IsInRange sc → HistoriesAreSound sc }
{}

/// Within the event limit no counter of a node outgrows what the rule table accepts.
pub fn room_is_left()
    ensures { (sc : Scenario) → IsInRange sc → RoomIsLeft sc }
{}

/// A node that is no event's target keeps its state.
pub fn others_keep_their_states()
    ensures { (sc : Scenario) → IsInRange sc → OthersKeepTheirStates (chord sc) }
{}

/// A legal history is possible.
pub fn legal_is_possible()
    ensures { (sc : Scenario) → IsInRange sc → LegalIsPossible (chord sc) }
{}

/// A legal history takes its events in the order of their keys.
pub fn legal_is_ascending()
    ensures { (sc : Scenario) → IsInRange sc → LegalIsAscending (chord sc) }
{}

/// There is one run: a legal history is its beginning.
pub fn legal_is_unique()
    ensures { (sc : Scenario) → IsInRange sc → LegalIsUnique (chord sc) }
{}

/// The beginning of the run is a legal history.
pub fn history_is_legal()
    ensures { (sc : Scenario) → IsInRange sc → HistoryIsLegal (chord sc) }
{}

/// It has as many events as requested, or as many as there are.
pub fn history_is_whole()
    ensures { (sc : Scenario) → IsInRange sc → HistoryIsWhole (chord sc) }
{}

/// A legal history after which no event may follow is the whole run.
pub fn ends_are_whole()
    ensures { (sc : Scenario) → IsInRange sc → EndsAreWhole (chord sc) }
{}

/// What a run has output is never taken back.
pub fn trace_grows()
    ensures { (sc : Scenario) → IsInRange sc → TraceGrows (chord sc) }
{}

/// The audits come one after another, none twice, and none after the end.
pub fn audits_are_in_time()
    ensures { (sc : Scenario) → IsInRange sc → AreAuditsInTime sc }
{}

/// An audit that no event has reached sees the whole history.
pub fn audits_see_all()
    ensures { (sc : Scenario) → IsInRange sc → AuditsSeeAll (chord sc) }
{}

/// An event closes the audits up to its time.
pub fn events_close_audits()
    ensures { (sc : Scenario) → IsInRange sc → EventsCloseAudits (chord sc) }
{}

/// Each outstanding call has exactly one timeout pending. So it gets a reply in time, or times out.
pub fn calls_are_timed()
    ensures { (sc : Scenario) → IsInRange sc → CallsAreTimed sc }
{}

/// No call is sent again more often than the scenario says.
pub fn retries_are_limited()
    ensures { (sc : Scenario) → IsInRange sc → RetriesAreLimited sc }
{}

/// A joining node has one call of its join outstanding, or one pause in it pending: no join is
/// forgotten, and none goes on twice.
pub fn joins_go_on()
    ensures { (sc : Scenario) → IsInRange sc → JoinsGoOn sc }
{}

/// A node that is not down has each tick of its life pending exactly once, if the scenario wants that
/// tick.
pub fn timers_live()
    ensures { (sc : Scenario) → IsInRange sc → TimersLive sc }
{}

/// Each lookup that a user has begun at a node is found, lost, in progress there, or cut off as the
/// node went down, in whatever order events are taken.
pub fn lookups_are_accounted_for()
    ensures { (sc : Scenario) → IsInRange sc → LookupsAreAccountedFor sc }
{}

/// The lookups that a report counts as found, as lost and as unfinished add up to all that it counts.
/// Those that it counts as unfinished are in progress at the end, or were cut off.
pub fn reports_add_up()
    ensures unfinished { (sc : Scenario) → IsInRange sc → UnfinishedAreUnended sc }
    ensures all { (sc : Scenario) → IsInRange sc → ReportsAddUp sc }
{}

/// A lookup in progress ends in time: its next timeout comes no later than one `timeout` after it began
/// for each request that it has sent, and so no later than one for each that it may send. No lookup of
/// a run's trace has taken longer than that. So each lookup ends: none is in progress for longer.
pub fn lookups_are_in_time()
    ensures sent { (sc : Scenario) → IsInRange sc → LookupsAreInTime sc }
    ensures most { (sc : Scenario) → IsInRange sc → LookupsAreShort sc }
    ensures ended { (sc : Scenario) → IsInRange sc → LookupsTakeAtMost sc }
    ensures ends { (sc : Scenario) → IsInRange sc → NoneLastsLonger sc }
{}
