//! The text of a report.
use crate::tests::steps::{is_text, value_of};
use chord_trace::{AuditCounts, LineCounts, Report, Watched};

/// A report whose numbers all differ.
const REPORT: Report = Report {
    events: 1,
    lines: LineCounts {
        members: 2,
        join_failed: 3,
        crashes: 4,
        stranded: 5,
        drops: 6,
        late: 7,
        timeouts: 8,
        lookups: 9,
        found: 10,
        lost: 11,
        busy: 12,
        ignored: 13,
        losses: 18446744073709551614,
        again: 26,
        forgotten: 27,
        leaves: 28,
        rescues: 29,
        creates: 30,
    },
    unfinished: 14,
    hops_sum: 15,
    hops_greatest: 16,
    timeouts_sum: 31,
    us_sum: 340282366920938463463374607431768211455,
    us_least: 18,
    us_median: 19,
    us_greatest: 18446744073709551615,
    audits: AuditCounts {
        audits: 21,
        ringless: 22,
        unordered: 23,
        insufficient: 24,
    },
    profile: 4,
};

const TEXT: &str =
    "events 1\nmembers 2\njoin-failed 3\ncrashes 4\nstranded 5\ndrops 6\nlate 7\ntimeouts 8\n\
    lookups 9\nfound 10\nlost 11\nbusy 12\nignored 13\nunfinished 14\nhops-sum 15\n\
    hops-greatest 16\nus-sum 340282366920938463463374607431768211455\nus-least 18\nus-median 19\n\
    us-greatest 18446744073709551615\naudits 21\nringless 22\nunordered 23\ninsufficient 24\n\
    losses 18446744073709551614\nagain 26\nforgotten 27\nleaves 28\nrescues 29\n\
    creates 30\ntimeouts-sum 31\n";

#[test]
fn each_number_has_its_line(rt: HostRuntime) {
    let mut writer = Watched::new(Vec::new(rt.alloc()));
    value_of(&rt, REPORT.write(rt.alloc(), &mut writer));
    let text = String::from_utf8_lossy(rt.alloc(), writer.into_inner().as_slice());
    let text = value_of(&rt, text);
    is_text(&rt, text.as_str(), TEXT);
}
