//! The laws of the simulated world. The functions of this crate do nothing: each has a law as its
//! contract.
#![tactic(auto)]

mod histories;
mod windows;

ghost use Rattle.chord_machine.specs.Chord.{chord};
ghost use Rattle.chord_machine.specs.Sound.{IsStateOf};
ghost use Rattle.des_model.specs.WellFormed.{IsWellFormed};
ghost use Rattle.chord_ops.specs.Sound.{IsSoundEvent};
ghost use Rattle.chord_scenario.specs.declared.scenario.Scenario.{Scenario};
ghost use Rattle.chord_scenario.specs.Range.{IsInRange};

pub use histories::{
    audits_are_in_time, audits_see_all, calls_are_timed, ends_are_whole, events_close_audits,
    histories_are_sound, history_is_legal, history_is_whole, joins_go_on, keys_are_distinct,
    legal_is_ascending, legal_is_possible, legal_is_unique, lookups_are_accounted_for,
    lookups_are_in_time, next_is_found, others_keep_their_states, pending_is_the_rest,
    pending_moves, reports_add_up, retries_are_limited, room_is_left, timers_live, trace_grows,
};
pub use windows::{
    horizons_may_open, limit_is_found, others_come_later, part_runs_are_possible, parts_commute,
    pieces_merge, runs_are_unique, schedules_agree, steps_run_parts, waiting_moves,
    windows_add_pieces, windows_close_audits, windows_commute, windows_leave_histories,
    windows_progress,
};

/// The model has what the laws require.
pub fn chord_is_well_formed()
    ensures { (sc : Scenario) → IsInRange sc → IsWellFormed (chord sc) (IsStateOf sc) (IsSoundEvent sc) }
{}
