//! The order of the nodes on the circle.
ghost use Rattle.std.specs.Prelude.{◌≡◌, ◌≤◌, IfOk, length, map};
ghost use Rattle.std.specs.List.{range_with_len};
ghost use Rattle.std.specs.List.Sorted.{IsNonDecreasingBy, IsPermutation};
ghost use Rattle.chord_scenario.specs.Order.{AreApart, AreInOrder, AreRanksOf, placed};

use crate::setting::Node;
use chord_circle::Raw;
use std::alloc::{AllocError, Global};

/// The nodes in the order of their identifiers. A rank is a place in this order, counted from 0.
#[derive(Clone, Copy, Drop)]
pub struct Order<'a> {
    /// The number of the node at each rank.
    pub nodes: &'a [u32],
    /// The rank of each node, by its number.
    pub ranks: &'a [u32],
}

/// An order as a scenario keeps it.
#[derive(Drop)]
pub(crate) struct KeptOrder {
    pub nodes: Vec<u32>,
    pub ranks: Vec<u32>,
}

/// A node with its identifier.
#[derive(Clone, Copy, Drop)]
pub(crate) struct Placed {
    pub ident: Raw,
    pub node: u32,
}

/// The order of nodes of different identifiers.
pub(crate) fn order_of(alloc: Global, nodes: &[Node]) -> Result<KeptOrder, AllocError>
    requires few { length nodes.now ≤ 16842752 }
    requires apart { AreApart nodes.now }
    ensures ranks { IfOk result (λ order. AreRanksOf nodes.now order.ranks.items) }
    ensures nodes { IfOk result (λ order. AreInOrder order.ranks.items order.nodes.items) }
{
    let mut order = placed_nodes(alloc, nodes)?;
    sort_by_ident(&mut order);
    // A table by numbers, filled in the order of the ranks: a search for each node would look at
    // memory that no cache has.
    let mut numbers = Vec::new(alloc);
    let mut ranks = vec![in alloc; 0; order.len()]?;
    for (rank, placed) in order.iter().enumerate() {
        numbers.push(placed.node)?;
        ranks[placed.node as usize] = rank as u32;
    }
    Ok(KeptOrder {
        nodes: numbers,
        ranks,
    })
}

/// Puts nodes in the order of their identifiers.
fn sort_by_ident(order: &mut Vec<Placed>)
    ensures moved { IsPermutation order.old.items order.new.items }
    ensures sorted { IsNonDecreasingBy (λ p. p.ident) order.new.items }
{
    order.sort_unstable_by_key(|placed| placed.ident);
}

/// The nodes with their identifiers, by their numbers.
fn placed_nodes(alloc: Global, nodes: &[Node]) -> Result<Vec<Placed>, AllocError>
    requires { length nodes.now ≤ 16842752 }
    ensures { IfOk result (λ order. order.items ≡ map (placed nodes.now) (range_with_len 0 (length nodes.now))) }
{
    let mut order = Vec::new(alloc);
    for node in 0..nodes.len() as u32 {
        let ident = nodes[node as usize].ident.raw();
        order.push(Placed { ident, node })?;
    }
    Ok(order)
}
