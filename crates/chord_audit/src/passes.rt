//! The ranks that successors and lists skip.
ghost use Rattle.std.specs.Prelude.{◌≡◌, ℕ, ◌<◌, ◌≤◌, ◌^◌, ◌||◌, IfOk, length};
ghost use Rattle.std.specs.List.{All, list_any, range_with_len};
ghost use Rattle.chord_scenario.specs.Order.{AreInOrder};
ghost use Rattle.chord_audit.specs.Tables.{covers, is_inside_list, is_marked, is_passing, is_skipped_rank, LeadBelow};

use crate::arcs::Arcs;
use chord_event::Memory;
use chord_node::NodeState;
use chord_scenario::Order;
use des_machine::States;
use std::alloc::Global;
use std::ops::Range;

/// Which ranks lie between a marked node and the node that it leads to.
pub(crate) fn skipped_ranks(
    alloc: Global,
    ranks: &[u32],
    marks: &[bool],
    best: &[Option<u32>],
) -> Result<Vec<bool>, Memory>
    requires ranks { All (λ rank. rank < length ranks.now) ranks.now }
    requires marks { length marks.now ≡ length ranks.now }
    requires best { length best.now ≡ length ranks.now }
    requires lead { LeadBelow (length ranks.now) best.now }
    ensures length { IfOk result (λ skipped. length skipped.items ≡ length ranks.now) }
    ensures skipped { IfOk result (λ skipped. (k : ℕ) → k < length ranks.now → is_marked skipped.items k ≡ is_skipped_rank ranks.now marks.now best.now k) }
{
    let mut arcs = Arcs::new(alloc, ranks.len())?;
    for node in 0..ranks.len() {
        if marks[node] {
            if let Some(next) = best[node] {
                arcs.add(ranks[node] as usize, ranks[next as usize] as usize);
            }
        }
    }
    arcs.covered(alloc)
}

/// Adds the ways between neighbours in the lists of the marked nodes of a block. Each node is the
/// first of its own list. The lists of the nodes before the block are added already.
pub(crate) fn add_passed<V: States<NodeState>>(
    arcs: &mut Arcs,
    order: &Order<'_>,
    marks: &[bool],
    states: &V,
    block: Range<usize>,
)
    requires few { length order.now.ranks.now < 2 ^ 32 }
    requires ranks { All (λ rank. rank < length order.now.ranks.now) order.now.ranks.now }
    requires nodes { AreInOrder order.now.ranks.now order.now.nodes.now }
    requires marks { length marks.now ≡ length order.now.ranks.now }
    requires states { length (V.list states.now) ≡ length order.now.ranks.now }
    requires succ { All (λ state. All (λ n. n < length order.now.ranks.now) state.succ) (V.list states.now) }
    requires block { (block.start ≤ block.end) × (block.end ≤ length order.now.ranks.now) }
    requires each { length arcs.old.far.items ≡ length order.now.ranks.now }
    requires before { (k : ℕ) → k < length order.now.ranks.now → covers arcs.old k ≡ list_any (is_passing order.now.ranks.now marks.now (V.list states.now) k) (range_with_len 0 block.start) }
    ensures each { length arcs.new.far.items ≡ length order.now.ranks.now }
    ensures covered { (k : ℕ) → k < length order.now.ranks.now → covers arcs.new k ≡ list_any (is_passing order.now.ranks.now marks.now (V.list states.now) k) (range_with_len 0 block.end) }
{
    for node in block.start..block.end {
        if marks[node] {
            let list = states.of(node as u32).succ.as_slice();
            add_list(arcs, order, node, list);
        }
    }
}

/// Adds the ways between the neighbours of a list, with the leader as its first.
fn add_list(arcs: &mut Arcs, order: &Order<'_>, leader: usize, list: &[u32])
    requires ranks { All (λ rank. rank < length arcs.old.far.items) order.now.ranks.now }
    requires nodes { AreInOrder order.now.ranks.now order.now.nodes.now }
    requires leader { leader < length order.now.ranks.now }
    requires list { All (λ n. n < length order.now.ranks.now) list.now }
    ensures length { length arcs.new.far.items ≡ length arcs.old.far.items }
    ensures covered { (k : ℕ) → k < length arcs.old.far.items → covers arcs.new k ≡ (covers arcs.old k || is_inside_list order.now.ranks.now k leader list.now) }
{
    let mut from = order.ranks[leader] as usize;
    for node in list {
        let next = from + 1;
        // Most lists follow the circle. Nothing lies between neighbours on it, and a look at the
        // rank of each would be one at memory that no cache has.
        if next < order.nodes.len() && order.nodes[next] == *node {
            from = next;
        } else {
            let to = order.ranks[*node as usize] as usize;
            arcs.add(from, to);
            from = to;
        }
    }
}
