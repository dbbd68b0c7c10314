//! Audits of rings, and the text of an audit.
ghost use Rattle.std.specs.Prelude.{◌<◌, IsTrue};
ghost use Rattle.std.specs.List.{All};

use crate::examples::play::{SETTINGS, text_of};
use crate::examples::table::FOUR;
use crate::tests::ring_of_three::scenario_of;
use crate::tests::steps::{is_text, value_of};
use chord_audit::{AuditLine, audit};
use chord_node::{NodeState, Status};
use chord_scenario::Scenario;
use chord_trace::{Watched, write_audit};
use std::process::Abort;

/// What each node knows: nothing if it is down, otherwise its list.
type Ring<'a> = [Option<&'a [u32]>; 4];

/// Rings of n0, n1, n3 and n6, and the audit of each. The runs of the examples come to none of these.
const RINGS: [(Ring, &str); 3] = [
    // The ring goes twice round the circle.
    (
        [Some(&[2]), Some(&[0]), Some(&[1]), None],
        "200 audit members=3 dead=0 ring=3 ordered=no principals=0 sufficient=no\n",
    ),
    // n0 is on no ring, but on the way from n3 to n1.
    (
        [Some(&[1, 2]), Some(&[2, 1]), Some(&[1, 2]), None],
        "200 audit members=3 dead=0 ring=2 ordered=yes principals=2 sufficient=no\n",
    ),
    // n0 knows no member.
    (
        [Some(&[3]), Some(&[2, 1]), Some(&[1, 2]), None],
        "200 audit members=3 dead=1 ring=2 ordered=yes principals=0 sufficient=no\n",
    ),
];

fn state<T: Abort + AllocGlobal>(rt: &T, knows: Option<&[u32]>) -> NodeState {
    let mut state = NodeState::never_up(rt.alloc(), 0);
    if let Some(list) = knows {
        state.status = Status::Member;
        for next in list {
            value_of(rt, state.succ.push(*next));
        }
    }
    state
}

/// Whether all lists name nodes below this number.
fn names_nodes(states: &[NodeState], nodes: u32) -> bool
    ensures { IsTrue result → All (λ state. All (λ n. n < nodes) state.succ) states.now }
{
    for state in states {
        if !is_below(state.succ.as_slice(), nodes) {
            return false;
        }
    }
    true
}

fn is_below(list: &[u32], nodes: u32) -> bool
    ensures { IsTrue result → All (λ n. n < nodes) list.now }
{
    for node in list {
        if *node >= nodes {
            return false;
        }
    }
    true
}

fn audited<T: Abort + AllocGlobal>(
    rt: &T,
    scenario: &Scenario,
    ring: &[Option<&[u32]>],
) -> AuditLine {
    let mut states = Vec::new(rt.alloc());
    for knows in ring {
        value_of(rt, states.push(state(rt, *knows)));
    }
    if states.len() != scenario.nodes() as usize || !names_nodes(&states, scenario.nodes()) {
        panic!(rt; "not the scenario's nodes");
    }
    value_of(rt, audit(rt.alloc(), scenario, &states, 200))
}

#[test]
fn audits_of_rings(rt: HostRuntime) {
    let text = value_of(&rt, text_of(rt.alloc(), SETTINGS, FOUR, ""));
    let scenario = scenario_of(&rt, text.as_str(), b"");
    for (ring, want) in &RINGS {
        let line = audited(&rt, &scenario, ring);
        has_text(&rt, &line, want);
    }
}

fn has_text<T: Abort + AllocGlobal>(rt: &T, line: &AuditLine, want: &str) {
    let mut writer = Watched::new(Vec::new(rt.alloc()));
    value_of(rt, write_audit(rt.alloc(), line, &mut writer));
    let text = String::from_utf8_lossy(rt.alloc(), writer.into_inner().as_slice());
    let text = value_of(rt, text);
    is_text(rt, text.as_str(), want);
}
