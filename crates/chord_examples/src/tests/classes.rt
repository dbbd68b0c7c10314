//! Classes of nodes as they are read.
use crate::tests::ring_of_three::scenario_of;
use crate::tests::steps::{is_text, value_of};
use chord_scenario::{ScenarioFault, read_scenario};
use std::process::Abort;

/// What the scenarios have in common.
const TOP: &str = "profile = 4\nbits = 64\nlist = 1\nseed = 1\nduration_us = 200\nwindow_us = 10\n\
    latency_us = 10\ntimeout_us = 40\naudit_us = 200\nstabilize_us = 1000\nfinger_us = 2000\n";

/// Two nodes, a class of three and a class of two, and a command of the last node but two.
const MIXED: &str = "[[node]]\nname = \"a\"\nx_us = 0\ny_us = 0\nheight_us = 10\n\
    [[node]]\nname = \"b\"\nx_us = 0\ny_us = 0\nheight_us = 10\n\
    [[nodes]]\ncount = 3\nprefix = \"n\"\ninitial = true\nx_us = 3\ny_us = 4\nheight_us = 5\n\
    [[nodes]]\ncount = 2\nprefix = \"n1-\"\nbootstrap = true\nx_us = 0\ny_us = 0\nheight_us = 10\n\
    [[command]]\nat_us = 100\ndo = \"crash\"\nnode = \"n2\"\n";

/// The text of a scenario with these tables.
fn text_with<T: Abort + AllocGlobal>(rt: &T, tables: &str) -> String {
    value_of(rt, format!(in rt.alloc(); "{TOP}{tables}"))
}

/// Nodes of classes come after the others, with names and identifiers by their numbers, and all at
/// one place.
#[test]
fn beside_nodes(rt: HostRuntime) {
    let text = text_with(&rt, MIXED);
    let scenario = scenario_of(&rt, text.as_str(), b"");
    assert!(rt; scenario.nodes() == 7);
    assert!(rt; scenario.name(1) == "b" && scenario.name(2) == "n0" && scenario.name(4) == "n2");
    assert!(rt; scenario.name(5) == "n1-0" && scenario.name(6) == "n1-1");
    assert!(rt; scenario.ident(2).raw() == 15575486209118177881);
    assert!(rt; scenario.ident(4).raw() == 4621876803238820060);
    assert!(rt; !scenario.initial(1) && scenario.initial(2) && !scenario.initial(5));
    assert!(rt; scenario.latency(2, 4) == 10 && scenario.latency(4, 0) == 20);
    assert!(rt; scenario.bootstraps() == [5, 6].as_slice());
    assert!(rt; scenario.commands() == 1);
    assert!(rt; scenario.command(0).node == 4);
}

/// Asserts that a scenario with these tables is refused with this text.
fn is_refused<T: Abort + AllocGlobal>(rt: &T, tables: &str, wanted: &str) {
    let text = text_with(rt, tables);
    match read_scenario(rt.alloc(), text.as_bytes(), b"") {
        Ok(_) => is_text(rt, "accepted", wanted),
        Err(fault) => is_fault(rt, &fault, wanted),
    }
}

/// Asserts that a fault has this text.
fn is_fault<T: Abort + AllocGlobal>(rt: &T, fault: &ScenarioFault, wanted: &str) {
    let found = value_of(rt, format!(in rt.alloc(); "{fault}"));
    is_text(rt, found.as_str(), wanted);
}

/// A name that a node or another class has too is found with its number among all nodes.
#[test]
fn repeated_names(rt: HostRuntime) {
    let beside =
        "[[node]]\nname = \"a\"\n[[node]]\nname = \"n70000\"\n[[nodes]]\ncount = 70001\nprefix = \"n\"\n";
    is_refused(&rt, beside, "S7 SameName node 2 node 70003");
    let classes = "[[nodes]]\ncount = 12\nprefix = \"n\"\n[[nodes]]\ncount = 2\nprefix = \"n1\"\n";
    is_refused(&rt, classes, "S7 SameName node 11 node 13");
}

/// Prefixes and counts that are not allowed, and files without any node.
#[test]
fn refused_classes(rt: HostRuntime) {
    let class = "[[nodes]]\ncount = 2\nprefix = \"m\"\n";
    let spaced = "[[nodes]]\ncount = 2\nprefix = \"a b\"\n";
    is_refused(&rt, spaced, "S6 BadName nodes 1");
    let long = value_of(
        &rt,
        format!(in rt.alloc();
            "{class}[[nodes]]\ncount = 2\nprefix = \"abcdefghijklmnopqrstuvwxyz\"\n"
        ),
    );
    is_refused(&rt, long.as_str(), "S6 BadName nodes 2");
    let one = "[[nodes]]\ncount = 1\nprefix = \"n\"\n";
    is_refused(&rt, one, "S5 OutOfRange nodes 1 count");
    is_refused(
        &rt,
        "[[nodes]]\ncount = 2\n",
        "S3 MissingKey nodes 1 prefix",
    );
    is_refused(&rt, "", "S3 MissingKey top node");
}
