//! Fingers in runs: each call once, with the nodes that are left after it.
use crate::tests::steps::{holds, value_of};
use chord_node::Fingers;
use std::process::Abort;

/// Whether the fingers are these nodes.
pub fn is_list(fingers: &Fingers, nodes: &[u32]) -> bool {
    let mut place: u32 = 0;
    for node in nodes {
        if fingers.get(place) != Some(*node) {
            return false;
        }
        let Some(next) = place.checked_add(1) else {
            return false;
        };
        place = next;
    }
    fingers.get(place).is_none()
}

/// Sets a finger that is there.
fn put(rt: &impl Abort, fingers: &mut Fingers, index: u32, node: u32) {
    let Some(_before) = fingers.get(index) else {
        panic!(rt; "no such finger");
    };
    value_of(rt, fingers.set(index, node));
}

/// Puts a node in the first two places, which are there.
fn fill_two(rt: &impl Abort, fingers: &mut Fingers, node: u32) {
    let Some(_before) = fingers.get(1) else {
        panic!(rt; "too few fingers");
    };
    value_of(rt, fingers.fill_first(2, node));
}

/// A finger is set in the middle of a run and at its ends. Equal neighbours are one run.
#[test]
fn a_finger_is_set(rt: HostRuntime) {
    let mut fingers = value_of(&rt, Fingers::filled(rt.alloc(), 4, 7));
    value_of(&rt, fingers.push(7));
    for (index, node, nodes, runs) in [
        (2, 9, [7, 7, 9, 7, 7], 3),
        (1, 9, [7, 9, 9, 7, 7], 3),
        (4, 8, [7, 9, 9, 7, 8], 4),
        (0, 9, [9, 9, 9, 7, 8], 3),
        (3, 9, [9, 9, 9, 9, 8], 2),
        (4, 9, [9, 9, 9, 9, 9], 1),
    ] {
        put(&rt, &mut fingers, index, node);
        holds(&rt, is_list(&fingers, &nodes), &nodes);
        holds(&rt, fingers.runs().len() == runs, &nodes);
    }
}

/// Fingers are filled, replaced, copied and cleared.
#[test]
fn fingers_change(rt: HostRuntime) {
    let mut fingers = Fingers::new(rt.alloc());
    for node in [1, 2, 2, 3] {
        value_of(&rt, fingers.push(node));
    }
    let copy = value_of(&rt, fingers.try_clone());
    value_of(&rt, fingers.replace(2, 3));
    holds(&rt, is_list(&fingers, &[1, 3, 3, 3]), &"replaced");
    holds(&rt, fingers.runs().len() == 2, &"two runs");
    fill_two(&rt, &mut fingers, 3);
    holds(&rt, is_list(&fingers, &[3, 3, 3, 3]), &"filled");
    holds(&rt, fingers.runs().len() == 1, &"one run");
    fingers.clear();
    holds(&rt, is_list(&fingers, &[]), &"cleared");
    holds(&rt, is_list(&copy, &[1, 2, 2, 3]), &"copied");
}
