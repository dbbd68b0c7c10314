//! Pairs of nodes that are nearer than a window is long, and coordinates beside rows.
ghost use Rattle.std.specs.Prelude.{◌≡◌, ◌+◌, ◌*◌, ◌<◌, length, drop, find, nat_lt, slice_get, Some, None, IfOk, option_copied};
ghost use Rattle.chord_scenario.specs.Rows.{rows_of};
ghost use Rattle.chord_scenario.specs.Latencies.{HasLatencies, square_or_zeros, latency_in};
ghost use Rattle.chord_scenario.specs.Faults.{bad_latency_row, same_name, latency_by_rows, latency_below_window, lower, lowest_from, name_in, low_pair, heights_below_window, below_window, rows_and_coordinates};

use crate::fault::ScenarioFault;
use crate::latency::cell_at;
use crate::name::Name;
use crate::row::Rows;
use crate::setting::{Coordinates, Node};
use std::alloc::{AllocError, Global};

/// The latency of two different nodes by a square for n nodes: its cell, or the default for a 0.
pub(crate) fn latency_in(cells: &[u32], n: usize, default: u64, i: usize, j: usize) -> u64
    requires row { i < n }
    requires column { j < n }
    requires square { length (square_or_zeros n cells.now) ≡ n * n }
    ensures { result ≡ latency_in (square_or_zeros n cells.now) n default i j }
{
    let cell = cell_at(cells, n, i, j);
    if cell == 0 { default } else { u64::from(cell) }
}

/// What the latencies of two nodes are, and the window that they are compared with. All are in
/// microseconds.
#[derive(Drop)]
struct Comparison<'a> {
    /// The square of the rows, with 0 for the default.
    cells: &'a [u32],
    default: u64,
    window: u64,
}

/// The first node after a place that is nearer to the one there than the window is long.
fn near_after<'a>(
    nodes: &'a [Node],
    rows: &Rows<'_>,
    by: &Comparison<'_>,
    i: usize,
    node: &Node,
) -> Option<&'a Node>
    requires here { slice_get nodes.now i ≡ Some node.now }
    requires square { HasLatencies nodes.now (rows_of rows.now.text.now) (square_or_zeros (length nodes.now) by.now.cells.now) }
    requires good { bad_latency_row (rows_of rows.now.text.now) ≡ None }
    requires distinct { same_name nodes.now ≡ None }
    ensures { option_copied result ≡ find (λ y. nat_lt (latency_by_rows by.entry.now.default (rows_of rows.entry.now.text.now) node.entry.now y) by.entry.now.window) (drop (i + 1) nodes.entry.now) }
{
    for j in i + 1..nodes.len() {
        let other = &nodes[j];
        if latency_in(by.cells, nodes.len(), by.default, i, j) < by.window {
            return Some(other);
        }
    }
    None
}

/// The first two nodes that are nearer than the window is long.
#[tactic(auto, unfolding(crate::specs::Faults::latency_below_window))]
fn latency_below_window(
    alloc: Global,
    nodes: &[Node],
    rows: &Rows<'_>,
    cells: &[u32],
    default: u64,
    window: u64,
) -> Result<Option<ScenarioFault>, AllocError>
    requires square { HasLatencies nodes.now (rows_of rows.now.text.now) (square_or_zeros (length nodes.now) cells.now) }
    requires good { bad_latency_row (rows_of rows.now.text.now) ≡ None }
    requires distinct { same_name nodes.now ≡ None }
    ensures { IfOk result (λ found. found ≡ latency_below_window window default nodes.now (rows_of rows.now.text.now)) }
{
    if rows.is_empty() && window <= default {
        return Ok(None);
    }
    let by = Comparison {
        cells,
        default,
        window,
    };
    for (i, node) in nodes.iter().enumerate() {
        if let Some(other) = near_after(nodes, rows, &by, i, node) {
            let first = Name::new(alloc, node.name.as_str())?;
            let second = Name::new(alloc, other.name.as_str())?;
            return Ok(Some(ScenarioFault::LatencyBelowWindow(first, second)));
        }
    }
    Ok(None)
}

/// The number and the height of the lower one of a node and a later one, or of the first if both
/// have one height.
fn lower(one: (usize, u64), later: Option<(usize, u64)>) -> (usize, u64)
    ensures { result ≡ lower one later }
{
    match later {
        Some(other) if other.1 < one.1 => other,
        _ => one,
    }
}

/// The number and the height of the first of the lowest nodes, without the one of a number.
fn lowest_without(left_out: usize, coordinates: &[Coordinates]) -> Option<(usize, u64)>
    ensures { result ≡ lowest_from left_out 0 coordinates.now }
{
    let mut lowest = None;
    let mut i = coordinates.len();
    while i > 0 {
        i -= 1;
        if i != left_out {
            lowest = Some(lower((i, coordinates[i].height), lowest));
        }
    }
    lowest
}

/// A copy of the name of a node.
fn name_in(alloc: Global, nodes: &[Node], number: usize) -> Result<Name, AllocError>
    ensures { IfOk result (λ name. name ≡ name_in nodes.now number) }
{
    match nodes.get(number) {
        Some(node) => Name::new(alloc, node.name.as_str()),
        None => Name::new(alloc, ""),
    }
}

/// The two nodes of these numbers and heights, if the sum of the heights is below the window.
fn low_pair(
    alloc: Global,
    nodes: &[Node],
    window: u64,
    one: (usize, u64),
    other: (usize, u64),
) -> Result<Option<ScenarioFault>, AllocError>
    ensures { IfOk result (λ found. found ≡ low_pair window nodes.now one other) }
{
    if one.1.saturating_add(other.1) >= window {
        return Ok(None);
    }
    let first = name_in(alloc, nodes, one.0)?;
    let second = name_in(alloc, nodes, other.0)?;
    Ok(Some(ScenarioFault::LatencyBelowWindow(first, second)))
}

/// The two lowest nodes, if the sum of their heights is below the window.
#[tactic(auto, unfolding(crate::specs::Faults::heights_below_window))]
fn heights_below_window(
    alloc: Global,
    nodes: &[Node],
    coordinates: &[Coordinates],
    window: u64,
) -> Result<Option<ScenarioFault>, AllocError>
    ensures { IfOk result (λ found. found ≡ heights_below_window window nodes.now coordinates.now) }
{
    let Some(one) = lowest_without(coordinates.len(), coordinates) else {
        return Ok(None);
    };
    let Some(other) = lowest_without(one.0, coordinates) else {
        return Ok(None);
    };
    low_pair(alloc, nodes, window, one, other)
}

/// Two nodes that are nearer than the window is long, by their heights if nodes have coordinates,
/// and else the first two by the rows.
#[tactic(auto, unfolding(crate::specs::Faults::below_window))]
pub(crate) fn below_window(
    alloc: Global,
    rows: &Rows<'_>,
    cells: &[u32],
    coordinates: &[Coordinates],
    default: u64,
    window: u64,
) -> Result<Option<ScenarioFault>, AllocError>
    requires square { HasLatencies rows.now.names.nodes.now (rows_of rows.now.text.now) (square_or_zeros (length rows.now.names.nodes.now) cells.now) }
    requires good { bad_latency_row (rows_of rows.now.text.now) ≡ None }
    requires distinct { same_name rows.now.names.nodes.now ≡ None }
    ensures { IfOk result (λ found. found ≡ below_window window default rows.now.names.nodes.now coordinates.now (rows_of rows.now.text.now)) }
{
    let nodes = rows.names.nodes;
    if coordinates.is_empty() {
        latency_below_window(alloc, nodes, rows, cells, default, window)
    } else {
        heights_below_window(alloc, nodes, coordinates, window)
    }
}

/// Whether there are coordinates and rows.
#[tactic(auto, unfolding(crate::specs::Faults::rows_and_coordinates))]
pub(crate) fn rows_and_coordinates(
    coordinates: &[Coordinates],
    rows: &Rows<'_>,
) -> Option<ScenarioFault>
    ensures { result ≡ rows_and_coordinates coordinates.now (rows_of rows.now.text.now) }
{
    if coordinates.is_empty() || rows.is_empty() {
        None
    } else {
        Some(ScenarioFault::RowsAndCoordinates)
    }
}
