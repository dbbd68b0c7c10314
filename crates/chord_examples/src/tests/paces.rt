//! How many workers a team takes for its windows.

use crate::tests::steps::holds;
use des_team::Pace;
use std::process::Abort;

/// Asserts how many of three other workers run each of some windows of 200 events. The caller waits
/// long in all of them or in none.
fn takes(rt: &impl Abort, pace: &mut Pace, windows: u32, others: usize, is_slow: bool) {
    for window in 0..windows {
        let found = pace.others(200, 3);
        holds(rt, found == others, &(window, found));
        pace.learn(200, 3, is_slow);
    }
}

/// Windows of 200 events are too small to wake anybody. They are shared until 16 of them were slow.
/// Then they are not, for 64 windows, and after 16 more slow ones for 128.
#[test]
fn small_windows_are_shared_unless_the_caller_has_to_wait(rt: HostRuntime) {
    let mut pace = Pace::new(250);
    takes(&rt, &mut pace, 16, 3, true);
    takes(&rt, &mut pace, 64, 0, true);
    takes(&rt, &mut pace, 16, 3, true);
    takes(&rt, &mut pace, 128, 0, false);
    takes(&rt, &mut pace, 1, 3, false);
}

/// Two windows that are not slow make good for one that is.
#[test]
fn a_slow_window_in_three_changes_nothing(rt: HostRuntime) {
    let mut pace = Pace::new(250);
    for _round in 0..40 {
        takes(&rt, &mut pace, 2, 3, false);
        takes(&rt, &mut pace, 1, 3, true);
    }
}

/// A window of 1,000 events is worth four workers, even while small ones are not shared. It teaches
/// nothing. 95 events are worth no other worker, 96 are worth two, and 128 three.
#[test]
fn large_windows_have_all_workers(rt: HostRuntime) {
    let mut pace = Pace::new(250);
    holds(&rt, pace.others(95, 3) == 0, &95);
    holds(&rt, pace.others(96, 3) == 2, &96);
    holds(&rt, pace.others(128, 3) == 3, &128);
    takes(&rt, &mut pace, 16, 3, true);
    holds(&rt, pace.others(1000, 3) == 3, &1000);
    pace.learn(1000, 3, true);
    takes(&rt, &mut pace, 64, 0, true);
    let always = Pace::new(0);
    holds(&rt, always.others(0, 3) == 3, &0);
}

/// After each try that fails small windows are not shared for twice as long, up to 4,096 windows.
/// Once a team has had all its credit again, it begins with 64.
#[test]
fn rests_get_longer_and_begin_anew(rt: HostRuntime) {
    let mut pace = Pace::new(250);
    for rest in [64, 128, 256, 512, 1024, 2048, 4096, 4096] {
        takes(&rt, &mut pace, 16, 3, true);
        takes(&rt, &mut pace, rest, 0, false);
    }
    takes(&rt, &mut pace, 33, 3, false);
    takes(&rt, &mut pace, 32, 3, true);
    takes(&rt, &mut pace, 64, 0, true);
    takes(&rt, &mut pace, 1, 3, true);
}
