//! The dealer that evens out the loads of the parts.
ghost use Rattle.std.specs.Prelude.{◌≡◌, ℕ, ◌<◌, ◌≤◌, length, IfOk, OnOk};
ghost use Rattle.std.specs.BinaryHeap.{heap_items, heap_len};
ghost use Rattle.std.specs.List.{All};

use crate::dealer::Dealer;
use des_event::Memory;
use des_window::{Division, MOST_PARTS};
use std::alloc::Global;
use std::cmp::Reverse;
use std::collections::BinaryHeap;
use std::marker::Model;

/// A dealer that evens out the parts by all events that their nodes have handled so far. It takes
/// the nodes in turn, the one with the greatest load first, and puts each on the part with the
/// least load so far. Among parts of one load it takes the one with the fewest nodes, so that nodes
/// without a load are spread too. Among equal nodes, and equal parts, the lowest number comes
/// first. Contracts see its number of parts.
#[derive(Drop)]
pub struct Balanced {
    alloc: Global,
    parts: u32,
}

impl Model for Balanced {
    ghost use Rattle.std.specs.Prelude.{ℕ, ◌<◌, ◌≤◌};
    ghost use Rattle.des_window.specs.declared.division.TheConstants.{MOST_PARTS};

    ghost Value = { ℕ };

    ghost view = { λ b. b.parts };

    ghost invariant = { λ b. (0 < b.parts) × (b.parts ≤ MOST_PARTS) };
}

/// A node with its load. The node with the greatest load comes first.
#[derive(Clone, Copy, PartialEq, Eq, PartialOrd, Ord)]
struct NodeLoad {
    load: Reverse<u64>,
    node: usize,
}

/// A part with the load of its nodes, and their number.
#[derive(Clone, Copy, PartialEq, Eq, PartialOrd, Ord)]
struct PartLoad {
    load: u64,
    nodes: u32,
    part: u32,
}

/// The nodes in the order in which they are dealt.
fn heaviest_first(alloc: Global, loads: &[u64]) -> Result<Vec<NodeLoad>, Memory>
    ensures long { IfOk result (λ order. length order.items ≡ length loads.now) }
    ensures nodes { IfOk result (λ order. All (λ o. o.node < length loads.now) order.items) }
{
    let mut order = Vec::new(alloc);
    for (node, load) in loads.iter().enumerate() {
        order.push(NodeLoad {
            load: Reverse(*load),
            node,
        })?;
    }
    order.sort()?;
    Ok(order)
}

/// `parts` parts without a load.
fn empty_parts(alloc: Global, parts: u32) -> Result<BinaryHeap<Reverse<PartLoad>>, Memory>
    ensures many { IfOk result (λ heap. heap_len heap ≡ parts) }
    ensures below { IfOk result (λ heap. All (λ p. p.0.part < parts) (heap_items heap)) }
{
    let mut heap = BinaryHeap::new(alloc);
    for part in 0..parts {
        heap.push(Reverse(PartLoad {
            load: 0,
            nodes: 0,
            part,
        }))?;
    }
    Ok(heap)
}

/// Puts a node with its load on the part with the least load. Returns that part.
fn put_load(least: &mut BinaryHeap<Reverse<PartLoad>>, load: u64) -> Result<u32, Memory>
    requires some { 0 < heap_len least.old }
    ensures many { OnOk result (heap_len least.new ≡ heap_len least.old) }
    ensures part { IfOk result (λ part. (parts : ℕ) → All (λ p. p.0.part < parts) (heap_items least.old) → part < parts) }
    ensures below { OnOk result ((parts : ℕ) → All (λ p. p.0.part < parts) (heap_items least.old) → All (λ p. p.0.part < parts) (heap_items least.new)) }
{
    let Some(Reverse(least_part)) = least.pop() else {
        unreachable!();
    };
    let PartLoad {
        load: before,
        nodes,
        part,
    } = least_part;
    least.push(Reverse(PartLoad {
        load: before.saturating_add(load),
        nodes: nodes.saturating_add(1),
        part,
    }))?;
    Ok(part)
}

/// The part of each node when the nodes are dealt in this order.
fn deal_in_order(alloc: Global, parts: u32, order: &[NodeLoad]) -> Result<Vec<u32>, Memory>
    requires parts { 0 < parts }
    requires nodes { All (λ o. o.node < length order.now) order.now }
    ensures long { IfOk result (λ of_node. length of_node.items ≡ length order.now) }
    ensures below { IfOk result (λ of_node. All (λ p. p < parts) of_node.items) }
{
    let mut least = empty_parts(alloc, parts)?;
    let mut of_node = vec![in alloc; 0u32; order.len()]?;
    for next in order {
        of_node[next.node] = put_load(&mut least, next.load.0)?;
    }
    Ok(of_node)
}

impl Balanced {
    /// A dealer for 1 to 512 parts.
    pub fn new(alloc: Global, parts: u32) -> Balanced
        requires parts { (0 < parts) × (parts ≤ MOST_PARTS) }
        ensures { result ≡ parts }
    {
        Balanced { alloc, parts }
    }
}

impl Dealer for Balanced {
    ghost use Rattle.std.specs.Prelude.{◌≡◌, length, IfOk};

    ghost can_name = { λ nodes d. length d.of_node ≡ nodes };

    fn deal(&mut self, loads: &[u64]) -> Result<Division, Memory>
        ensures named { IfOk result (λ d. length d.of_node ≡ length loads.now) }
        ensures parts { IfOk result (λ d. d.parts ≡ self.old) }
        ensures unchanged { self.new ≡ self.old }
    {
        let order = heaviest_first(self.alloc, loads)?;
        let of_node = deal_in_order(self.alloc, self.parts, order.as_slice())?;
        Ok(Division::of_list(self.parts, of_node))
    }
}
