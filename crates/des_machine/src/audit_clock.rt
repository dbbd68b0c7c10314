//! The clock of the audits.
ghost use Rattle.std.specs.Prelude.{◌≡◌, ◌<◌, ◌≤◌, ◌∷◌, nat_lt, slice_get, MatchOption};
ghost use Rattle.std.specs.List.{AllByRecursion, filter};
ghost use Rattle.des_machine.specs.Times.{IsAscending};

use std::marker::Model;

/// The times of the audits that are still to come, in microseconds, in order.
#[derive(Drop)]
pub struct AuditClock {
    times: Vec<u64>,
    next: usize,
}

impl Model for AuditClock {
    ghost use Rattle.std.specs.Prelude.{ℕ, List, ◌≤◌, drop, length};
    ghost use Rattle.des_machine.specs.Times.{IsAscending};

    ghost Value = { List ℕ };

    ghost view = { λ c. drop c.next c.times.items };

    ghost invariant = { λ c. (c.next ≤ length c.times.items) × IsAscending c.times.items };
}

impl AuditClock {
    /// The clock of all these audits.
    pub fn new(times: Vec<u64>) -> AuditClock
        requires { IsAscending times.items }
        ensures { result ≡ times.items }
    {
        AuditClock { times, next: 0 }
    }

    /// The time of the first audit.
    pub fn first(&self) -> Option<u64>
        ensures { result ≡ slice_get self.now 0 }
    {
        self.times.get(self.next).copied()
    }

    /// The time of the first audit after this time.
    pub fn first_after(&self, time: u64) -> Option<u64>
        ensures { result ≡ slice_get (filter (λ t. nat_lt time t) self.now) 0 }
    {
        let mut at = self.next;
        while at < self.times.len() {
            let audit = self.times[at];
            if audit > time {
                return Some(audit);
            }
            at += 1;
        }
        None
    }

    /// Takes the first audit, if it is due by this time.
    #[inline(always)]
    pub fn take_due(&mut self, time: u64) -> Option<u64>
        ensures { MatchOption result ((self.new ≡ self.old) × AllByRecursion (λ t. time < t) self.old) (λ due. (self.old ≡ due ∷ self.new) × (due ≤ time)) }
    {
        if self.next < self.times.len() {
            let due = self.times[self.next];
            if due <= time {
                self.next += 1;
                return Some(due);
            }
        }
        None
    }
}
