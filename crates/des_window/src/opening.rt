//! When a window begins, and when it ends.
ghost use Rattle.std.specs.Prelude.{◌≡◌, ◌<◌, min, nat_lt};
ghost use Rattle.std.specs.List.{filter};
ghost use Rattle.des_model.specs.Schedules.{horizon_from};
ghost use Rattle.des_window.specs.Openings.{end_at, sooner};

use des_machine::{AuditClock, Machine};

/// A window: the time of its first event and its horizon, which all its events are before, both in
/// microseconds.
#[derive(Clone, Copy, Drop)]
pub struct Opening {
    pub time: u64,
    pub horizon: u64,
}

/// The earlier of two times, of which either may be missing.
pub fn sooner(least: Option<u64>, time: Option<u64>) -> Option<u64>
    ensures { result ≡ sooner least time }
{
    match time {
        None => least,
        Some(t) => match least {
            None => Some(t),
            Some(s) => { if t < s { Some(t) } else { Some(s) } }
        },
    }
}

/// A time, or the end, whichever comes first.
fn end_at(end: u64, time: Option<u64>) -> u64
    ensures { result ≡ end_at end time }
{
    match time {
        None => end,
        Some(time) => lesser(time, end),
    }
}

fn lesser(a: u64, b: u64) -> u64
    ensures { result ≡ min a b }
{
    if a < b { a } else { b }
}

/// The end of a window that begins at a time: a lookahead later, at the next audit or at the end of
/// the run, whichever comes first. The clock has all audits after that time.
pub fn horizon_from<M: Machine>(machine: &M, clock: &AuditClock, time: u64) -> u64
    requires clock { filter (λ t. nat_lt time t) clock.now ≡ filter (λ t. nat_lt time t) (M.model machine.now).audit_times }
    ensures { result ≡ horizon_from (M.model machine.now) time }
{
    machine.recall();
    let stop = end_at(machine.duration(), clock.first_after(time));
    lesser(time.saturating_add(machine.lookahead()), stop)
}
