//! Scenarios as they are read.
use crate::tests::ring_of_three::{NO_HOP, scenario_of, text_of_three};
use crate::tests::steps::{is_text, value_of};
use chord_event::{Body, Event};
use chord_scenario::Action;
use std::alloc::AllocError;
use std::fmt::Write as _;

/// Three nodes without identifiers, which churn and look up at once.
const NAMED: &str = r#"profile = 1
bits = 8
list = 1
seed = 1
duration_us = 200
window_us = 10
latency_us = 10
timeout_us = 40
audit_us = 200
stabilize_us = 1000
finger_us = 2000
churn = { life_min_us = 7, life_max_us = 7, down_min_us = 1, down_max_us = 1 }
lookups = { gap_min_us = 5, gap_max_us = 5 }
[[node]]
name = "a"
initial = true
[[node]]
name = "b"
[[node]]
name = "c"
initial = true
churn = true
[[command]]
at_us = 100
do = "join"
node = "b"
via = "c"
[[command]]
at_us = 50
do = "crash"
node = "a"
"#;

/// The texts and the latencies of the ring of three with one lookup.
#[test]
fn readers(rt: HostRuntime) {
    let text = text_of_three(&rt, NO_HOP);
    let scenario = scenario_of(&rt, text.as_str(), b"n3,n0,15\n");
    assert!(rt; scenario.nodes() == 3);
    assert!(rt; scenario.latency(0, 2) == 15 && scenario.latency(2, 0) == 15);
    assert!(rt; scenario.latency(0, 1) == 10 && scenario.latency(1, 1) == 1);
    assert!(rt; scenario.latency_us() == 10);
    assert!(rt; scenario.name(2) == "n3" && scenario.ident(2).raw() == 3);
    assert!(rt; scenario.jitter() == 0 && scenario.max_events() == 50_000_000);
    assert!(rt; scenario.commands() == 1);
    let command = scenario.command(0);
    assert!(rt; command.at == 100 && command.node == 0);
    let key = scenario.ident(1);
    assert!(rt; command.action == Action::Lookup { key });
}

/// The time, the origin, the number and the target of each first event of the named ring, and what it asks for.
const FIRST: &str = "100 1 1 1 join by 2\n\
    50 1 2 0 crash\n\
    1000 2 1 0 stabilize 1\n\
    2000 2 2 0 finger 1\n\
    5 2 3 0 traffic 1\n\
    1000 4 1 2 stabilize 1\n\
    2000 4 2 2 finger 1\n\
    5 4 3 2 traffic 1\n\
    7 4 4 2 end of life 1\n";

/// What a first event asks for, and its epoch or the node that a join asks.
fn named(body: &Body) -> (&'static str, u64) {
    match body {
        Body::CmdJoin { via } => (" join by ", *via as u64),
        Body::StabilizeTick { epoch } => (" stabilize ", *epoch),
        Body::FingerTick { epoch } => (" finger ", *epoch),
        Body::TrafficTick { epoch } => (" traffic ", *epoch),
        Body::LifeEnd { epoch } => (" end of life ", *epoch),
        _ => (" another ", 0),
    }
}

fn write_event(text: &mut String, event: &Event) -> Result<(), AllocError> {
    let Event { key, target, body } = event;
    write!(text, "{} {} {} {target}", key.time, key.origin, key.number)?;
    if let Body::CmdCrash = body {
        return writeln!(text, " crash");
    }
    let (name, number) = named(body);
    writeln!(text, "{name}{number}")
}

#[test]
fn starts(rt: HostRuntime) {
    let scenario = scenario_of(&rt, NAMED, b"");
    assert!(rt; scenario.nodes() == 3);
    let idents = (
        scenario.ident(0).raw(),
        scenario.ident(1).raw(),
        scenario.ident(2).raw(),
    );
    assert!(rt; idents == (134, 233, 132));
    let events = value_of(&rt, scenario.start_events(rt.alloc()));
    let mut text = String::new(rt.alloc());
    for event in events.as_slice() {
        value_of(&rt, write_event(&mut text, event));
    }
    is_text(&rt, text.as_str(), FIRST);
}
