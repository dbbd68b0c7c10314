//! The random streams of the nodes in a run.
use crate::examples::play::{SETTINGS, THREE, text_of};
use crate::tests::left::play_text;
use crate::tests::steps::value_of;
use chord_stream::Stream;
use std::process::Abort;

/// Asserts that a trace has this line.
fn has_line(rt: &impl Abort, trace: &str, line: &str) {
    assert!(rt; trace.lines().any(|it| it == line), "{trace}");
}

/// Each node draws from its own stream: the first keys that three nodes look up differ. The four words before a node's
/// first key go into its three first timers and the timer that is set again.
#[test]
fn each_node_has_its_own_stream(rt: HostRuntime) {
    let settings = format!(in rt.alloc();
        "{SETTINGS}lookups = {{ gap_min_us = 50, gap_max_us = 50 }}\n"
    );
    let settings = value_of(&rt, settings);
    let text = value_of(&rt, text_of(rt.alloc(), settings.as_str(), THREE, ""));
    let left = play_text(&rt, text.as_str());
    assert!(rt; left.has_ended());
    let trace = left.trace.as_str();
    assert!(rt; Stream::of(1, 0).word_at(4) % 8 == 2);
    has_line(&rt, trace, "50 n0 lookup 2");
    has_line(&rt, trace, "50 n1 lookup 5");
    has_line(&rt, trace, "50 n3 lookup 1");
}

/// A crash does not change a node's place in its stream.
#[test]
fn a_crash_keeps_the_place_in_the_stream(rt: HostRuntime) {
    let settings =
        "list = 2\nduration_us = 360\nwindow_us = 10\ntimeout_us = 30\naudit_us = 360\nstabilize_us = 40\nfinger_us = 1000\n\
        lookups = { gap_min_us = 200, gap_max_us = 200 }\n";
    let commands = "[[command]]\nat_us = 45\ndo = \"crash\"\nnode = \"n1\"\n\
        [[command]]\nat_us = 150\ndo = \"join\"\nnode = \"n1\"\nvia = \"n0\"\n";
    let text = value_of(&rt, text_of(rt.alloc(), settings, THREE, commands));
    let left = play_text(&rt, text.as_str());
    assert!(rt; left.has_ended());
    let trace = left.trace.as_str();
    has_line(&rt, trace, "190 n1 member n0");
    has_line(&rt, trace, "350 n1 lookup 0");
}

/// The order in which places are asked does not matter.
#[test]
fn places_in_any_order(rt: HostRuntime) {
    let stream = Stream::of(1, 2);
    let words = [stream.word_at(0), stream.word_at(1), stream.word_at(17)];
    let again = Stream::of(1, 2);
    assert!(rt;
        [again.word_at(17), again.word_at(1), again.word_at(0)] == [words[2], words[1], words[0]]
    );
    assert!(rt; words[0] != words[1] && words[1] != words[2]);
    for place in [0, 1, 17] {
        assert!(rt; stream.below(place, 1) == 0);
    }
}
