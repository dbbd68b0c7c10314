//! Divisions, and runs with divisions that do not fit.
ghost use Rattle.std.specs.Prelude.{◌≤◌, length};

use crate::tests::ring_of_three::ring_of_three;
use crate::tests::steps::{holds, is_text, value_of};
use chord_event::RunError;
use chord_trace::Watched;
use chord_window::{Division, run_picked};
use std::process::Abort;

#[test]
fn a_list_that_is_no_division_is_refused_for_the_first_fault(rt: HostRuntime) {
    is_refused(&rt, 0, &[0, 1], "NoParts");
    is_refused(&rt, 513, &[0, 1], "TooManyParts");
    is_refused(&rt, 2, &[0, 1], "WrongLength");
    is_refused(&rt, 2, &[0, 2, 1], "PartOutOfRange");
}

/// Asserts that a list of parts of three nodes is refused for the fault of this name.
fn is_refused<T: Abort + AllocGlobal>(rt: &T, parts: u32, of_node: &[u32], fault: &str) {
    let of_node = value_of(rt, Vec::from_slice(rt.alloc(), of_node));
    let Err(found) = Division::new(3, parts, of_node) else {
        panic!(rt; "no {fault}");
    };
    let shown = value_of(rt, format!(in rt.alloc(); "{found} {found:?}"));
    let expected = value_of(rt, format!(in rt.alloc(); "{fault} {fault}"));
    is_text(rt, shown.as_str(), expected.as_str());
}

/// Asserts that a division has these parts.
pub fn divides(rt: &impl Abort, division: &Division, parts: u32, of_node: &[u32])
    requires { length of_node.now ≤ 8 }
{
    holds(rt, division.parts() == parts, &of_node);
    assert!(rt; division.nodes() == of_node.len());
    for (node, part) in of_node.iter().enumerate() {
        holds(rt, division.part_of(node as u32) == *part, &of_node);
    }
}

#[test]
fn divisions_of_a_list_dealt_and_in_blocks(rt: HostRuntime) {
    let list = value_of(&rt, Vec::from_slice(rt.alloc(), &[1, 0, 1]));
    let taken = value_of(&rt, Division::new(3, 2, list));
    divides(&rt, &taken, 2, &[1, 0, 1]);
    let dealt = value_of(&rt, Division::dealt(rt.alloc(), 5, 2));
    divides(&rt, &dealt, 2, &[0, 1, 0, 1, 0]);
    let blocks = value_of(&rt, Division::blocks(rt.alloc(), 5, 2));
    divides(&rt, &blocks, 2, &[0, 0, 0, 1, 1]);
    let more_parts_than_nodes = value_of(&rt, Division::blocks(rt.alloc(), 3, 5));
    divides(&rt, &more_parts_than_nodes, 5, &[0, 1, 3]);
}

/// A division of four nodes does not fit a ring of three, and nothing is written.
#[test]
fn a_division_of_another_number_of_nodes(rt: HostRuntime) {
    let scenario = ring_of_three(&rt, "");
    let division = value_of(&rt, Division::dealt(rt.alloc(), 4, 2));
    let mut writer = Watched::new(Vec::new(rt.alloc()));
    let outcome = run_picked(rt.alloc(), &scenario, &division, 2, &[], &mut writer);
    assert!(rt; outcome.err() == Some(RunError::BadDivision));
    assert!(rt; writer.into_inner().is_empty());
}
