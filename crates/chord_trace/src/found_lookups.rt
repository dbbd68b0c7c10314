//! Sums and counts of the lookups that were found.
ghost use Rattle.std.specs.Prelude.{◌≡◌, ◌*◌, ◌^◌, ◌≤◌, true};
ghost use Rattle.chord_trace.specs.Kinds.{found_in};
ghost use Rattle.chord_trace.specs.LookupTimes.{timed};

use crate::lookup_times::LookupTimes;
use chord_event::Line;
use std::alloc::{AllocError, Global};

/// A lookup that was found: how many of its requests other nodes answered (a node that was asked
/// again counts once), how many timed out, and how long it took in microseconds.
#[derive(Clone, Copy, Drop)]
pub(crate) struct Found {
    pub hops: u32,
    pub timeouts: u32,
    pub us: u64,
}

/// The lookups that were found: their hops, their timeouts and their times in microseconds.
#[derive(Drop)]
pub struct FoundLookups {
    pub len: u64,
    pub hops_sum: u128,
    pub hops_greatest: u64,
    pub timeouts_sum: u128,
    pub us_sum: u128,
    pub us_least: u64,
    pub us_greatest: u64,
    pub times: LookupTimes,
    ghost hops_fit: { hops_sum ≤ len * 2 ^ 32 },
    ghost timeouts_fit: { timeouts_sum ≤ len * 2 ^ 32 },
    ghost times_fit: { us_sum ≤ len * 2 ^ 64 },
    ghost times_are_all: { timed (λ _. true) times ≡ len },
}

impl FoundLookups {
    ghost use Rattle.std.specs.Prelude.{◌≡◌, ◌+◌, ◌^◌, ◌<◌, ◌≤◌, ℕ, List, [], ◌∷◌, ◌++◌, length, IfOk, OnOk};
    ghost use Rattle.std.specs.List.{filter_map};
    ghost use Rattle.chord_trace.specs.FoundLookups.{HasFound, found_len};
    ghost use Rattle.chord_trace.specs.Numbers.{IsMedian, times_of};
    ghost use Rattle.chord_trace.specs.declared.found_lookups.Found.{Found as AFound};

    /// No lookups.
    pub fn new(alloc: Global) -> FoundLookups
        ensures { HasFound [] result }
    {
        FoundLookups {
            len: 0,
            hops_sum: 0,
            hops_greatest: 0,
            timeouts_sum: 0,
            us_sum: 0,
            us_least: 0,
            us_greatest: 0,
            times: LookupTimes::new(alloc),
        }
    }

    /// Adds the lookups that were found according to these lines.
    pub fn add_lines(&mut self, lines: &[Line]) -> Result<(), AllocError>
        requires { found_len self.old + length lines.now ≤ 2 ^ 47 }
        ensures has { OnOk result ((seen : List AFound) → HasFound seen self.old → HasFound (seen ++ filter_map found_in lines.now) self.new) }
        ensures at_most { found_len self.new ≤ found_len self.old + length lines.now }
    {
        for line in lines {
            if let Some(found) = found_in(*line) {
                self.add(found)?;
            }
        }
        Ok(())
    }

    fn add(&mut self, found: Found) -> Result<(), AllocError>
        requires { found_len self.old < 2 ^ 47 }
        ensures has { OnOk result ((seen : List AFound) → HasFound seen self.old → HasFound (seen ++ found ∷ []) self.new) }
        ensures one_more { OnOk result (found_len self.new ≡ found_len self.old + 1) }
        ensures at_most { found_len self.new ≤ found_len self.old + 1 }
    {
        let Found { hops, timeouts, us } = found;
        self.times.add(us)?;
        self.us_least = if self.len == 0 {
            us
        } else {
            self.us_least.min(us)
        };
        self.len += 1;
        self.hops_sum += u128::from(hops);
        self.hops_greatest = self.hops_greatest.max(u64::from(hops));
        self.timeouts_sum += u128::from(timeouts);
        self.us_sum += u128::from(us);
        self.us_greatest = self.us_greatest.max(us);
        Ok(())
    }

    /// Both together.
    pub fn join(self, other: FoundLookups) -> Result<FoundLookups, AllocError>
        requires { found_len self + found_len other ≤ 2 ^ 47 }
        ensures has { IfOk result (λ joined. (seen more : List AFound) → HasFound seen self → HasFound more other → HasFound (seen ++ more) joined) }
        ensures len { IfOk result (λ joined. found_len joined ≡ found_len self + found_len other) }
    {
        let mut times = self.times;
        times.join(&other.times)?;
        let us_least = if self.len == 0 {
            other.us_least
        } else if other.len == 0 {
            self.us_least
        } else {
            self.us_least.min(other.us_least)
        };
        Ok(FoundLookups {
            len: self.len + other.len,
            hops_sum: self.hops_sum + other.hops_sum,
            hops_greatest: self.hops_greatest.max(other.hops_greatest),
            timeouts_sum: self.timeouts_sum + other.timeouts_sum,
            us_sum: self.us_sum + other.us_sum,
            us_least,
            us_greatest: self.us_greatest.max(other.us_greatest),
            times,
        })
    }

    /// The median time in microseconds: the lower of the two middle ones, and 0 if there are no
    /// times.
    pub fn us_median(&self) -> u64
        ensures { (seen : List AFound) → HasFound seen self.now → IsMedian (times_of seen) result }
    {
        if self.len == 0 {
            return 0;
        }
        self.times.nth_least(self.len.div_ceil(2), self.us_greatest)
    }
}

/// The lookup that was found, if the line is of one.
fn found_in(line: Line) -> Option<Found>
    ensures { result ≡ found_in line }
{
    match line {
        Line::Found {
            hops,
            timeouts,
            us,
            ..
        } => Some(Found { hops, timeouts, us }),
        _ => None,
    }
}
