//! How long the lookups took that were found.
ghost use Rattle.std.specs.Prelude.{◌≡◌, ℕ, ◌+◌, ◌^◌, ◌<◌, ◌≤◌, Bool, true, cond, count_by, drop, nat_le, length, take};
ghost use Rattle.chord_trace.specs.LookupTimes.{counted, timed};

use std::alloc::{AllocError, Global};

/// How many lookups took a time in microseconds.
#[derive(Clone, Copy, Drop)]
pub struct TimeCount {
    pub us: u32,
    pub count: u32,
}

/// The times of lookups in microseconds.
#[derive(Drop)]
pub struct LookupTimes {
    /// Times below 2^32, which is 71 minutes. Several entries may have the same one.
    pub short: Vec<TimeCount>,
    /// Each longer time.
    pub long: Vec<u64>,
    /// How many entries `short` has before those of the same time are merged.
    room: usize,
}

/// The fewest entries that are worth a merge.
const LEAST_ROOM: usize = 1024;

impl LookupTimes {
    ghost use Rattle.std.specs.Prelude.{◌≡◌, ℕ, ◌+◌, ◌^◌, ◌<◌, ◌≤◌, Bool, true, cond, nat_le, nat_lt, OnOk, OnErr};
    ghost use Rattle.chord_trace.specs.LookupTimes.{timed};

    /// No times.
    pub fn new(alloc: Global) -> LookupTimes
        ensures { (test : ℕ → Bool) → timed test result ≡ 0 }
    {
        LookupTimes {
            short: Vec::new(alloc),
            long: Vec::new(alloc),
            room: LEAST_ROOM,
        }
    }

    /// Adds a time.
    pub fn add(&mut self, us: u64) -> Result<(), AllocError>
        ensures more { OnOk result ((test : ℕ → Bool) → timed test self.new ≡ timed test self.old + cond (test us) 1 0) }
        ensures same { OnErr result ((test : ℕ → Bool) → timed test self.new ≡ timed test self.old) }
    {
        if let Ok(us) = u32::try_from(us) {
            return self.push(TimeCount { us, count: 1 });
        }
        self.long.push(us)?;
        Ok(())
    }

    /// Adds an entry of a short time.
    fn push(&mut self, entry: TimeCount) -> Result<(), AllocError>
        ensures more { OnOk result ((test : ℕ → Bool) → timed test self.new ≡ timed test self.old + cond (test entry.us) entry.count 0) }
        ensures same { OnErr result ((test : ℕ → Bool) → timed test self.new ≡ timed test self.old) }
    {
        if self.short.len() >= self.room {
            self.merge_equal();
        }
        self.short.push(entry)?;
        Ok(())
    }

    /// Merges the entries of the same time. The next merge comes with half as many entries more, so
    /// all sorts together take O(n log n) for n lookups.
    fn merge_equal(&mut self)
        ensures { (test : ℕ → Bool) → timed test self.new ≡ timed test self.old }
    {
        self.short.sort_unstable_by_key(|entry| entry.us);
        merge_neighbours(&mut self.short);
        let entries = self.short.len();
        self.room = LEAST_ROOM.max(entries.saturating_add(entries / 2));
    }

    /// Adds other times.
    pub fn join(&mut self, other: &LookupTimes) -> Result<(), AllocError>
        ensures { OnOk result ((test : ℕ → Bool) → timed test self.new ≡ timed test self.old + timed test other.now) }
    {
        for entry in &other.short {
            self.push(*entry)?;
        }
        self.long.extend_from_slice(other.long.as_slice())?;
        Ok(())
    }

    /// The n-th least of the times, if so many are at most `greatest`.
    pub fn nth_least(&self, n: u64, greatest: u64) -> u64
        requires first { 0 < n }
        requires fits { timed (λ _. true) self.now < 2 ^ 64 }
        ensures below { timed (λ time. nat_lt time result) self.now < n }
        ensures up_to { n ≤ timed (λ time. nat_le time greatest) self.now → n ≤ timed (λ time. nat_le time result) self.now }
    {
        let mut least = 0;
        let mut most = greatest;
        while least < most {
            let middle = least + (most - least) / 2;
            if self.count_up_to(middle) < n {
                least = middle + 1;
            } else {
                most = middle;
            }
        }
        least
    }

    /// How many times are at most this.
    fn count_up_to(&self, us: u64) -> u64
        requires { timed (λ _. true) self.now < 2 ^ 64 }
        ensures { result ≡ timed (λ time. nat_le time us) self.now }
    {
        count_short_up_to(&self.short, us) + count_long_up_to(&self.long, us) as u64
    }
}

impl TimeCount {
    ghost use Rattle.std.specs.Prelude.{◌≡◌, ℕ, ◌+◌, Bool, cond, IfSome};

    /// Both together, if they have the same time and their count has 32 bits.
    fn plus(self, other: TimeCount) -> Option<TimeCount>
        ensures { IfSome result (λ both. (test : ℕ → Bool) → cond (test both.us) both.count 0 ≡ cond (test self.us) self.count 0 + cond (test other.us) other.count 0) }
    {
        if self.us != other.us {
            return None;
        }
        let count = self.count.checked_add(other.count)?;
        Some(TimeCount { us: self.us, count })
    }
}

/// Merges neighbours of the same time.
fn merge_neighbours(entries: &mut Vec<TimeCount>)
    ensures { (test : ℕ → Bool) → counted test entries.new.items ≡ counted test entries.old.items }
{
    // The entries before this one are merged.
    let mut merged = 0;
    for next in 0..entries.len() {
        let entry = entries[next];
        merged = merge_one(entries, merged, entry);
    }
    entries.truncate(merged);
}

/// Merges one more entry with the first ones. Returns how many there are then.
fn merge_one(entries: &mut Vec<TimeCount>, merged: usize, entry: TimeCount) -> usize
    requires { merged < length entries.old.items }
    ensures length { length entries.new.items ≡ length entries.old.items }
    ensures few { result ≤ merged + 1 }
    ensures rest { drop (merged + 1) entries.new.items ≡ drop (merged + 1) entries.old.items }
    ensures more { (test : ℕ → Bool) → counted test (take result entries.new.items) ≡ counted test (take merged entries.old.items) + cond (test entry.us) entry.count 0 }
{
    if merged > 0 {
        if let Some(both) = entries[merged - 1].plus(entry) {
            entries[merged - 1] = both;
            return merged;
        }
    }
    entries[merged] = entry;
    merged + 1
}

/// How many lookups took at most this time, of those of short times.
fn count_short_up_to(entries: &[TimeCount], us: u64) -> u64
    requires { counted (λ _. true) entries.now < 2 ^ 64 }
    ensures { result ≡ counted (λ time. nat_le time us) entries.now }
{
    let mut count = 0;
    for entry in entries {
        if u64::from(entry.us) <= us {
            count += u64::from(entry.count);
        }
    }
    count
}

/// How many of the long times are at most this.
fn count_long_up_to(times: &[u64], us: u64) -> usize
    ensures { result ≡ count_by (λ time. nat_le time us) times.now }
{
    times.iter().filter(|time| **time <= us).count()
}
