//! Step answers on the ring of three.
ghost use Rattle.std.specs.Prelude.{◌≡◌, true};
ghost use Rattle.chord_node.specs.Fingers.{expanded};
ghost use Rattle.chord_node.specs.Invariant.{AllNodes};

use crate::tests::ring_of_three::ring_of_three;
use crate::tests::steps::{holds, value_of};
use chord_circle::Raw;
use chord_event::Answer;
use chord_node::{NodeState, Run, initial_ring};
use chord_ops::{closest_preceding, step_answer};
use chord_scenario::Scenario;
use std::process::Abort;

/// For a node, a key and nodes to avoid: the closest preceding node and the step answer.
type Search = (usize, Raw, &'static [u32], u32, Answer);

const SEARCHES: [Search; 27] = [
    (0, 0, &[], 2, Answer::Next(2)),
    (0, 1, &[], 0, Answer::Owner(1)),
    (0, 2, &[], 1, Answer::Next(1)),
    (0, 3, &[], 1, Answer::Next(1)),
    (0, 4, &[], 2, Answer::Next(2)),
    (0, 7, &[], 2, Answer::Next(2)),
    (0, 1, &[1], 0, Answer::Owner(2)),
    (0, 3, &[1], 0, Answer::Owner(2)),
    (0, 4, &[1], 2, Answer::Next(2)),
    (0, 4, &[2], 1, Answer::Next(1)),
    (0, 4, &[2, 1], 0, Answer::Stuck),
    (1, 0, &[], 2, Answer::Next(2)),
    (1, 1, &[], 0, Answer::Next(0)),
    (1, 2, &[], 1, Answer::Owner(2)),
    (1, 3, &[], 1, Answer::Owner(2)),
    (1, 4, &[], 2, Answer::Next(2)),
    (1, 1, &[0], 2, Answer::Next(2)),
    (1, 4, &[2], 1, Answer::Owner(0)),
    (1, 1, &[0, 2], 1, Answer::Stuck),
    (2, 0, &[], 2, Answer::Owner(0)),
    (2, 4, &[], 2, Answer::Owner(0)),
    (2, 1, &[], 0, Answer::Next(0)),
    (2, 2, &[], 0, Answer::Next(0)),
    (2, 3, &[], 0, Answer::Next(0)),
    (2, 1, &[0], 2, Answer::Owner(1)),
    (2, 2, &[0], 1, Answer::Next(1)),
    (2, 2, &[0, 1], 2, Answer::Stuck),
];

fn searches() -> &'static [Search] {
    &SEARCHES
}

/// Whether all these nodes are the scenario's.
fn are_known(scenario: &Scenario, nodes: &[u32]) -> bool
    ensures { result ≡ true → AllNodes scenario.now nodes.now }
{
    nodes.iter().all(|node| *node < scenario.nodes())
}

/// Whether the nodes of all these runs are the scenario's.
fn are_fingers_known(scenario: &Scenario, runs: &[Run]) -> bool
    ensures { result ≡ true → AllNodes scenario.now (expanded runs.now) }
{
    for run in runs {
        if run.node >= scenario.nodes() {
            return false;
        }
    }
    true
}

/// On the ring of three, n0 has the successors n1 and n3 and the fingers n3 and n0, n1 the successors
/// n3 and n0 and the same fingers, and n3 the successors n0 and n1 and n0 as both fingers. So each
/// node knows the owner of a key up to its first successor that is not to be avoided. For any other
/// key it names the node that it knows closest before the key, as n3 for key 4 at n0: the second
/// entry of a list counts for this only if the first is to be avoided.
#[test]
fn searches_of_the_first_ring(rt: HostRuntime) {
    let scenario = ring_of_three(&rt, "");
    let states = value_of(&rt, initial_ring(rt.alloc(), &scenario));
    for search in searches() {
        let Some(state) = states.as_slice().get(search.0) else {
            panic!(rt; "no such node");
        };
        ends_as_listed(&rt, &scenario, state, search);
    }
}

fn ends_as_listed(rt: &impl Abort, scenario: &Scenario, state: &NodeState, search: &Search) {
    let (_, key, avoid, closest, answer) = search;
    assert!(rt; state.me < scenario.nodes());
    assert!(rt; are_known(scenario, state.succ.as_slice()));
    assert!(rt; are_fingers_known(scenario, state.fingers.runs()));
    let place = scenario.circle().low_bits(*key);
    let found = closest_preceding(scenario, state, place, avoid);
    holds(rt, found == *closest, search);
    let found = step_answer(scenario, state, place, avoid);
    holds(rt, found == *answer, search);
}
