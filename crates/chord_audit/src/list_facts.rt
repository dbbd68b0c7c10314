//! What the successor lists say of all nodes.
ghost use Rattle.std.specs.Prelude.{◌≡◌, ℕ, ◌<◌, ◌^◌, IfOk, find, length, map};
ghost use Rattle.std.specs.List.{All};
ghost use Rattle.chord_scenario.specs.Order.{AreInOrder};
ghost use Rattle.chord_audit.specs.Tables.{is_marked, is_passed_rank};

use crate::arcs::Arcs;
use crate::passes::add_passed;
use crate::successors::add_best;
use chord_event::Memory;
use chord_node::NodeState;
use chord_scenario::Order;
use des_machine::States;
use std::alloc::Global;

/// How many lists are read in a row. Each lies elsewhere in memory. The processor fetches several
/// of them at once if no other work stands between their reads.
const BLOCK: usize = 128;

/// The best successor of each node, and which ranks lie between two neighbours of a member's list.
#[derive(Drop)]
pub(crate) struct ListFacts {
    pub best: Vec<Option<u32>>,
    pub passed: Vec<bool>,
}

/// What the lists of all nodes say. `passed` takes each member for the first entry of its own list.
pub(crate) fn read_lists<V: States<NodeState>>(
    alloc: Global,
    order: &Order<'_>,
    members: &[bool],
    states: &V,
) -> Result<ListFacts, Memory>
    requires few { length order.now.ranks.now < 2 ^ 32 }
    requires ranks { All (λ rank. rank < length order.now.ranks.now) order.now.ranks.now }
    requires nodes { AreInOrder order.now.ranks.now order.now.nodes.now }
    requires members { length members.now ≡ length order.now.ranks.now }
    requires states { length (V.list states.now) ≡ length order.now.ranks.now }
    requires succ { All (λ state. All (λ n. n < length order.now.ranks.now) state.succ) (V.list states.now) }
    ensures best { IfOk result (λ facts. facts.best.items ≡ map (λ state. find (is_marked members.now) state.succ) (V.list states.now)) }
    ensures each { IfOk result (λ facts. length facts.passed.items ≡ length order.now.ranks.now) }
    ensures passed { IfOk result (λ facts. (k : ℕ) → k < length order.now.ranks.now → is_marked facts.passed.items k ≡ is_passed_rank order.now.ranks.now members.now (V.list states.now) k) }
{
    let nodes = order.ranks.len();
    let mut best = Vec::new(alloc);
    let mut arcs = Arcs::new(alloc, nodes)?;
    while best.len() < nodes {
        let first = best.len();
        let end = nodes.min(first + BLOCK);
        add_best(&mut best, members, states, end)?;
        add_passed(&mut arcs, order, members, states, first..end);
    }
    let passed = arcs.covered(alloc)?;
    Ok(ListFacts { best, passed })
}
