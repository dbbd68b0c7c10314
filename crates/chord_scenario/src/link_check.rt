//! The faults of commands and of rows.

ghost use Rattle.std.specs.Prelude.{◌≡◌, map};
ghost use Rattle.chord_scenario.specs.declared.fault.ScenarioFault.TheVariants.{UnknownNode, BadLatencyRow, SelfLink};
ghost use Rattle.chord_scenario.specs.Sections.{section_of};
ghost use Rattle.chord_scenario.specs.Rows.{rows_of};
ghost use Rattle.chord_scenario.specs.Search.{section_fault, row_fault};
ghost use Rattle.chord_scenario.specs.Faults.{command_names_unknown, unknown_node, time_after_end, bad_latency_row, joins_itself, self_link};
ghost use Rattle.chord_scenario.specs.Latencies.{keeps_unknown, keeps_bad_row, keeps_itself};

use crate::fault::ScenarioFault;
use crate::key::{FileKey, Place};
use crate::names::Names;
use crate::node::name_at;
use crate::operation::{Operation, operation_at};
use crate::row::{RowLink, Rows};
use crate::section::PlacedTable;
use crate::value::{number_at, text_at};

/// Whether a table is a command that names a node which is none.
fn command_names_unknown(names: &Names<'_>, table: &PlacedTable<'_>) -> bool
    ensures { result ≡ command_names_unknown names.now.nodes.now (section_of table.now) }
{
    if !matches!(table.at, Place::Command(_)) {
        return false;
    }
    if names.is_unknown(name_at(table.table, FileKey::Node).as_bytes()) {
        return true;
    }
    match text_at(table.table, FileKey::Via) {
        Some(via) => names.is_unknown(via.as_bytes()),
        None => false,
    }
}

/// The first command that names a node which is none.
fn unknown_in_commands(names: &Names<'_>, tables: &[PlacedTable<'_>]) -> Option<ScenarioFault>
    ensures { result ≡ section_fault UnknownNode (command_names_unknown names.now.nodes.now) (map section_of tables.now) }
{
    for table in tables {
        if command_names_unknown(names, table) {
            return Some(ScenarioFault::UnknownNode(table.at));
        }
    }
    None
}

/// Whether a row names a node which is none.
fn row_names_unknown(row: &Option<RowLink>) -> bool
    ensures { result ≡ keeps_unknown row.now }
{
    match row {
        Some(link) => link.first.is_none() || link.second.is_none(),
        None => false,
    }
}

/// The first row that names a node which is none.
fn unknown_in_rows(rows: &[Option<RowLink>]) -> Option<ScenarioFault>
    ensures { result ≡ row_fault UnknownNode keeps_unknown rows.now }
{
    for (i, row) in rows.iter().enumerate() {
        if row_names_unknown(row) {
            return Some(ScenarioFault::UnknownNode(Place::Row(i + 1)));
        }
    }
    None
}

/// The first command, or else row, that names a node which is none.
#[tactic(auto, unfolding(crate::specs::Faults::unknown_node))]
pub(crate) fn unknown_node(tables: &[PlacedTable<'_>], rows: &Rows<'_>) -> Option<ScenarioFault>
    ensures { result ≡ unknown_node rows.now.names.nodes.now (map section_of tables.now) (rows_of rows.now.text.now) }
{
    match unknown_in_commands(&rows.names, tables) {
        Some(fault) => Some(fault),
        None => unknown_in_rows(&rows.links),
    }
}

/// The first command after the end.
#[tactic(auto, unfolding(crate::specs::Faults::time_after_end))]
pub(crate) fn time_after_end(duration: u64, tables: &[PlacedTable<'_>]) -> Option<ScenarioFault>
    ensures { result ≡ time_after_end duration (map section_of tables.now) }
{
    for table in tables {
        if matches!(table.at, Place::Command(_))
            && duration <= number_at(table.table, FileKey::AtUs)
        {
            return Some(ScenarioFault::TimeAfterEnd(table.at));
        }
    }
    None
}

/// Whether a row does not have three fields, or its third is no latency.
fn is_bad_row(row: &Option<RowLink>) -> bool
    ensures { result ≡ keeps_bad_row row.now }
{
    match row {
        Some(link) => link.latency.is_none(),
        None => true,
    }
}

/// The first of what is kept that is of a bad row.
fn bad_in_rows(rows: &[Option<RowLink>]) -> Option<ScenarioFault>
    ensures { result ≡ row_fault BadLatencyRow keeps_bad_row rows.now }
{
    for (i, row) in rows.iter().enumerate() {
        if is_bad_row(row) {
            return Some(ScenarioFault::BadLatencyRow(Place::Row(i + 1)));
        }
    }
    None
}

/// The first row that does not have three fields, or whose third is no latency.
#[tactic(auto, unfolding(crate::specs::Faults::bad_latency_row))]
pub(crate) fn bad_latency_row(rows: &Rows<'_>) -> Option<ScenarioFault>
    ensures { result ≡ bad_latency_row (rows_of rows.now.text.now) }
{
    bad_in_rows(&rows.links)
}

/// Whether a table is a command to join through the node itself.
fn joins_itself(table: &PlacedTable<'_>) -> bool
    ensures { result ≡ joins_itself (section_of table.now) }
{
    matches!(table.at, Place::Command(_))
        && matches!(operation_at(table.table), Some(Operation::Join))
        && name_at(table.table, FileKey::Node) == name_at(table.table, FileKey::Via)
}

/// The first command to join through the node itself.
fn self_link_in_commands(tables: &[PlacedTable<'_>]) -> Option<ScenarioFault>
    ensures { result ≡ section_fault SelfLink joins_itself (map section_of tables.now) }
{
    for table in tables {
        if joins_itself(table) {
            return Some(ScenarioFault::SelfLink(table.at));
        }
    }
    None
}

/// Whether a row names one node twice.
fn row_joins_itself(row: &Option<RowLink>) -> bool
    ensures { result ≡ keeps_itself row.now }
{
    match row {
        Some(link) => link.itself,
        None => false,
    }
}

/// The first row that names one node twice.
fn self_link_in_rows(rows: &[Option<RowLink>]) -> Option<ScenarioFault>
    ensures { result ≡ row_fault SelfLink keeps_itself rows.now }
{
    for (i, row) in rows.iter().enumerate() {
        if row_joins_itself(row) {
            return Some(ScenarioFault::SelfLink(Place::Row(i + 1)));
        }
    }
    None
}

/// The first command, or else row, that links a node with itself. In the extended profile a join
/// through the node itself makes a ring.
#[tactic(auto, unfolding(crate::specs::Faults::self_link))]
pub(crate) fn self_link(
    extended: bool,
    tables: &[PlacedTable<'_>],
    rows: &Rows<'_>,
) -> Option<ScenarioFault>
    ensures { result ≡ self_link extended (map section_of tables.now) (rows_of rows.now.text.now) }
{
    if extended {
        return self_link_in_rows(&rows.links);
    }
    match self_link_in_commands(tables) {
        Some(fault) => Some(fault),
        None => self_link_in_rows(&rows.links),
    }
}
