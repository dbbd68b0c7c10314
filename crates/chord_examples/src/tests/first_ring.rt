//! The ring at the start, and what its nodes know.
use crate::examples::play::SETTINGS;
use crate::tests::fingers::is_list;
use crate::tests::ring_of_three::{ring_of_three, scenario_of};
use crate::tests::steps::{holds, value_of};
use chord_node::initial_ring;
use chord_scenario::Scenario;
use std::process::Abort;

/// What a node knows: its list, the node before it, and its fingers, if they are to be compared.
type Known = ([u32; 2], u32, Option<[u32; 2]>);

/// Asserts that three nodes know this at the start.
fn know<T: Abort + AllocGlobal>(rt: &T, scenario: &Scenario, expected: [Known; 3]) {
    let states = value_of(rt, initial_ring(rt.alloc(), scenario));
    assert!(rt; states.len() == 3);
    for (state, known) in states.as_slice().iter().zip(&expected) {
        let (succ, prdc, fingers) = known;
        holds(rt, state.succ.as_slice() == succ.as_slice(), known);
        holds(rt, state.prdc == Some(*prdc), known);
        if let Some(fingers) = fingers {
            holds(rt, is_list(&state.fingers, fingers), known);
        }
    }
}

/// What each node of the ring of three knows at the start.
#[test]
fn the_first_ring(rt: HostRuntime) {
    let scenario = ring_of_three(&rt, "");
    know(
        &rt,
        &scenario,
        [
            ([1, 2], 2, Some([2, 0])),
            ([2, 0], 0, Some([2, 0])),
            ([0, 1], 1, Some([0, 0])),
        ],
    );
}

/// Nodes without identifiers are at the places of their names: a at 134, b at 233 and c at 132 of 256.
const NAMED: &str = "profile = 1\nbits = 8\nseed = 1\nlatency_us = 10\n";

#[test]
fn a_ring_of_names(rt: HostRuntime) {
    let text = format!(in rt.alloc();
        "{NAMED}{SETTINGS}\
        [[node]]\nname = \"a\"\ninitial = true\n\
        [[node]]\nname = \"b\"\ninitial = true\n\
        [[node]]\nname = \"c\"\ninitial = true\n"
    );
    let text = value_of(&rt, text);
    let scenario = scenario_of(&rt, text.as_str(), b"");
    know(
        &rt,
        &scenario,
        [([1, 2], 2, None), ([2, 0], 0, None), ([0, 1], 1, None)],
    );
}
