//! The square of latencies that a latency file gives.
ghost use Rattle.std.specs.Prelude.{◌≡◌, ◌⊎◌, ◌+◌, ◌*◌, ◌^◌, false, Some, None, IfOk, IfErr, length, slice_index, ◌<◌, ◌≤◌};
ghost use Rattle.chord_scenario.specs.Rows.{rows_of};
ghost use Rattle.chord_scenario.specs.Latencies.{HasLatencies, square_or_zeros, KeepsEnds, keeps_unknown, keeps_bad_row};
ghost use Rattle.chord_scenario.specs.declared.fault.ScenarioFault.TheVariants.{UnknownNode};
ghost use Rattle.chord_scenario.specs.Search.{row_fault};
ghost use Rattle.chord_scenario.specs.Faults.{row_names_unknown, bad_latency_row, same_link_twice};

use crate::fault::ScenarioFault;
use crate::key::Place;
use crate::row::{RowLink, Rows};
use std::alloc::Global;

/// The numbers of the nodes that a row names, and its latency in microseconds.
#[derive(Clone, Copy)]
pub(crate) struct Ends {
    pub first: u32,
    pub second: u32,
    pub latency: u32,
}

/// The ends and the latency of a row.
fn ends_of(row: &Option<RowLink>) -> Ends
    requires known { keeps_unknown row.now ≡ false }
    requires good { keeps_bad_row row.now ≡ false }
    ensures { KeepsEnds row.now result }
{
    let Some(link) = row else {
        unreachable!();
    };
    let Some(first) = link.first else {
        unreachable!();
    };
    let Some(second) = link.second else {
        unreachable!();
    };
    let Some(latency) = link.latency else {
        unreachable!();
    };
    Ends {
        first,
        second,
        latency,
    }
}

/// The index of the cell of two nodes in a square for n of them.
pub(crate) fn cell_of(n: usize, i: usize, j: usize) -> usize
    requires row { i < n }
    requires column { j < n }
    requires fits { n * n < 2 ^ 64 }
    ensures value { result ≡ i * n + j }
    ensures within { result < n * n }
{
    i * n + j
}

/// What a square for n nodes has for two of them. An empty list means a square of zeros.
pub(crate) fn cell_at(cells: &[u32], n: usize, i: usize, j: usize) -> u32
    requires row { i < n }
    requires column { j < n }
    requires square { length (square_or_zeros n cells.now) ≡ n * n }
    ensures { result ≡ slice_index (square_or_zeros n cells.now) (i * n + j) }
{
    if cells.is_empty() {
        return 0;
    }
    cells[cell_of(n, i, j)]
}

/// The square of latencies that rows give, which is empty if there are no rows, or the first row
/// that names the pair of an earlier one.
pub(crate) fn latencies(alloc: Global, rows: &Rows<'_>) -> Result<Vec<u32>, ScenarioFault>
    requires few { length rows.now.names.nodes.now ≤ 16842752 }
    requires known { row_fault UnknownNode (row_names_unknown rows.now.names.nodes.now) (rows_of rows.now.text.now) ≡ None }
    requires good { bad_latency_row (rows_of rows.now.text.now) ≡ None }
    ensures once { IfOk result (λ _. same_link_twice (rows_of rows.now.text.now) ≡ None) }
    ensures square { IfOk result (λ v. HasLatencies rows.now.names.nodes.now (rows_of rows.now.text.now) (square_or_zeros (length rows.now.names.nodes.now) v.items)) }
    ensures refused { IfErr result (λ e. (e ≡ ScenarioFault.Memory) ⊎ (same_link_twice (rows_of rows.now.text.now) ≡ Some e)) }
{
    if rows.is_empty() {
        // No square without rows: for 65,536 nodes it would take 16 GiB.
        return Ok(Vec::new(alloc));
    }
    let n = rows.names.nodes.len();
    let mut cells = vec![in alloc; 0u32; n * n]?;
    for (i, row) in rows.links.iter().enumerate() {
        let ends = ends_of(row);
        let place = cell_of(n, ends.first as usize, ends.second as usize);
        let mirrored = cell_of(n, ends.second as usize, ends.first as usize);
        // A latency is at least 1, so 0 means that no row has named the pair yet.
        if cells[place] != 0 {
            return Err(ScenarioFault::SameLinkTwice(Place::Row(i + 1)));
        }
        cells[place] = ends.latency;
        cells[mirrored] = ends.latency;
    }
    Ok(cells)
}
