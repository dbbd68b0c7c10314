//! How many workers run a window. What is written does not depend on it.

/// How many events are worth sharing with a worker that is awake: more than pass while parts are
/// handed over and taken back.
const EVENTS_OF_AN_AWAKE_WORKER: u64 = 32;

/// How many events a window must have to be shared with workers that are awake: with fewer, their
/// waiting takes more processor time than sharing saves.
const FEWEST_SHARED: u64 = 96;

/// The most credit. A try begins with half of it.
const MOST_CREDIT: u32 = 64;

/// What a slow window takes of the credit. Any other gives 1, so one in three may be slow.
const COST_OF_A_SLOW_WINDOW: u32 = 2;

/// How many small windows are not shared after the first loss of all credit.
const SHORTEST_REST: u32 = 64;

/// How many are not shared at most, until the next try.
const LONGEST_REST: u32 = 4096;

/// How a team goes about small windows, which are not worth waking all workers.
///
/// A worker stays awake for a while after its last part. If each worker has a processor of its own,
/// small windows follow each other so closely that none falls asleep. So small windows are shared
/// too, as long as the caller seldom has to wait long for the others. If it often has to, small
/// windows have few workers for a while, and then it tries again.
#[derive(Drop)]
pub struct Pace {
    /// As in `Hands`.
    worth: u64,
    /// Small windows are shared as long as some is left.
    credit: u32,
    /// How many small windows are left until the next try.
    rest: u32,
    /// How many there will be when all credit is lost again.
    next_rest: u32,
}

/// How many workers beside the caller, of `most`, this many events are worth.
fn others_worth(events: u64, worth: u64, most: usize) -> usize {
    match events.checked_div(worth) {
        Some(workers) => usize::try_from(workers.saturating_sub(1))
            .unwrap_or(most)
            .min(most),
        None => most,
    }
}

impl Pace {
    /// The pace at the start of a run. `worth` is how many events of a window are worth waking a
    /// worker that sleeps.
    pub fn new(worth: u64) -> Pace {
        Pace {
            worth,
            credit: MOST_CREDIT / 2,
            rest: 0,
            next_rest: SHORTEST_REST,
        }
    }

    /// How many workers beside the caller, of `most`, this many events are worth if all are awake.
    fn awake_others(&self, events: u64, most: usize) -> usize {
        if events < FEWEST_SHARED {
            return others_worth(events, self.worth, most);
        }
        others_worth(events, self.worth.min(EVENTS_OF_AN_AWAKE_WORKER), most)
    }

    /// How many workers beside the caller, of `most`, are to run a window of this many events.
    pub fn others(&self, events: u64, most: usize) -> usize {
        if self.rest == 0 {
            self.awake_others(events, most)
        } else {
            others_worth(events, self.worth, most)
        }
    }

    /// Learns from a window of this many events whether it was slow: the caller had to wait long.
    pub fn learn(&mut self, events: u64, most: usize, was_slow: bool) {
        if others_worth(events, self.worth, most) == self.awake_others(events, most) {
            return;
        }
        if self.rest > 0 {
            self.rest -= 1;
        } else if was_slow {
            self.lose_credit();
        } else {
            self.gain_credit();
        }
    }

    /// Credit for a window that was not slow.
    fn gain_credit(&mut self) {
        if self.credit < MOST_CREDIT {
            self.credit += 1;
        } else {
            self.next_rest = SHORTEST_REST;
        }
    }

    /// Credit lost by a slow window. Without credit the workers rest, longer each time.
    fn lose_credit(&mut self) {
        self.credit = self.credit.saturating_sub(COST_OF_A_SLOW_WINDOW);
        if self.credit == 0 {
            self.credit = MOST_CREDIT / 2;
            self.rest = self.next_rest;
            self.next_rest = self.next_rest.saturating_mul(2).min(LONGEST_REST);
        }
    }
}
