//! Members and their best successors.
ghost use Rattle.std.specs.Prelude.{◌≡◌, ◌<◌, ◌≤◌, ◌^◌, IfOk, OnOk, length, map, find, take};
ghost use Rattle.std.specs.List.{All};
ghost use Rattle.chord_audit.specs.Audit.{is_member};
ghost use Rattle.chord_audit.specs.Tables.{is_marked};

use chord_event::Memory;
use chord_node::{NodeState, Status};
use des_machine::States;
use std::alloc::Global;

/// Which nodes are members.
pub(crate) fn members_of<V: States<NodeState>>(
    alloc: Global,
    nodes: u32,
    states: &V,
) -> Result<Vec<bool>, Memory>
    requires { length (V.list states.now) ≡ nodes }
    ensures { IfOk result (λ members. members.items ≡ map is_member (V.list states.now)) }
{
    let mut members = Vec::new(alloc);
    for node in 0..nodes {
        members.push(states.of(node).status == Status::Member)?;
    }
    Ok(members)
}

/// Adds the best successors of the next nodes, up to the one before `end`.
pub(crate) fn add_best<V: States<NodeState>>(
    best: &mut Vec<Option<u32>>,
    members: &[bool],
    states: &V,
    end: usize,
) -> Result<(), Memory>
    requires next { length best.old.items ≤ end }
    requires end { end ≤ length (V.list states.now) }
    requires few { length (V.list states.now) < 2 ^ 32 }
    requires succ { All (λ state. All (λ n. n < length members.now) state.succ) (V.list states.now) }
    requires before { best.old.items ≡ map (λ state. find (is_marked members.now) state.succ) (take (length best.old.items) (V.list states.now)) }
    ensures { OnOk result (best.new.items ≡ map (λ state. find (is_marked members.now) state.succ) (take end (V.list states.now))) }
{
    for node in best.len()..end {
        let list = states.of(node as u32).succ.as_slice();
        best.push(first_marked(list, members))?;
    }
    Ok(())
}

/// The first marked node of a list.
fn first_marked(list: &[u32], marks: &[bool]) -> Option<u32>
    requires { All (λ n. n < length marks.now) list.now }
    ensures { result ≡ find (is_marked marks.now) list.now }
{
    for node in list {
        if marks[*node as usize] {
            return Some(*node);
        }
    }
    None
}
