//! The faults of keys: unknown, missing, of another type, out of range.

ghost use Rattle.std.specs.Prelude.{◌≡◌, map, not, string_bytes};
ghost use Rattle.std.specs.List.{list_any};
ghost use Rattle.std.specs.BTreeMap.{keys};
ghost use Rattle.toml.specs.View.{table_view};
ghost use Rattle.chord_scenario.specs.Sections.{section_of};
ghost use Rattle.chord_scenario.specs.declared.fault.ScenarioFault.TheVariants.{MissingKey, WrongType, OutOfRange};
ghost use Rattle.chord_scenario.specs.Settings.{has_nodes, is_placed_section};
ghost use Rattle.chord_scenario.specs.KeyFaults.{key_fault_in, is_listed, has_unlisted, unknown_key, is_churn_section, needs_of, is_required, is_missing, missing_key, has_wrong_type, wrong_type, is_out_of_range, out_of_range};

use crate::fault::ScenarioFault;
use crate::key::{Entry, FileKey, Place, Presence, keys_at};
use crate::operation::{Operation, operation_at};
use crate::section::PlacedTable;
use crate::value::{agrees, has_type, is_in_range, truth_at, value_at, whole};
use toml::Table;

/// Whether the table at a place may have this key.
fn is_listed(profile: u64, at: Place, name: &str) -> bool
    ensures { result ≡ is_listed profile at name.now }
{
    keys_at(profile, at)
        .iter()
        .any(|entry| entry.0.name() == name)
}

/// Whether one of the names in a table is not listed for its place.
fn has_unlisted_name(profile: u64, at: Place, table: &Table) -> bool
    ensures { result ≡ list_any (λ k. not (is_listed profile at (string_bytes k))) (keys table.now) }
{
    table
        .keys()
        .any(|name| !is_listed(profile, at, name.as_str()))
}

/// Whether a table has a key that is not listed for its place.
fn has_unlisted(profile: u64, at: Place, table: &Table) -> bool
    ensures { result ≡ has_unlisted profile at (table_view table.now) }
{
    has_unlisted_name(profile, at, table)
}

/// The first table with a key that is not listed for its place.
#[tactic(auto, unfolding(crate::specs::KeyFaults::unknown_key))]
pub(crate) fn unknown_key(profile: u64, tables: &[PlacedTable<'_>]) -> Option<ScenarioFault>
    ensures { result ≡ unknown_key profile (map section_of tables.now) }
{
    for table in tables {
        if has_unlisted(profile, table.at, table.table) {
            return Some(ScenarioFault::UnknownKey(table.at));
        }
    }
    None
}

/// Whether a place is that of a table of nodes: of one node, or of a class.
fn has_nodes(at: Place) -> bool
    ensures { result ≡ has_nodes at }
{
    matches!(at, Place::Node(_) | Place::Nodes(_))
}

/// Whether a table is a node that churns, or a class of such nodes.
fn is_churn_section(table: &PlacedTable<'_>) -> bool
    ensures { result ≡ is_churn_section (section_of table.now) }
{
    has_nodes(table.at) && truth_at(table.table, FileKey::Churn)
}

/// Whether some node churns.
fn has_churn_node(tables: &[PlacedTable<'_>]) -> bool
    ensures { result ≡ list_any is_churn_section (map section_of tables.now) }
{
    for table in tables {
        if is_churn_section(table) {
            return true;
        }
    }
    false
}

/// Whether a table is a node or a class that has one of the keys of coordinates.
fn is_placed_section(table: &PlacedTable<'_>) -> bool
    ensures { result ≡ is_placed_section (section_of table.now) }
{
    has_nodes(table.at)
        && (value_at(table.table, FileKey::XUs).is_some()
            || value_at(table.table, FileKey::YUs).is_some()
            || value_at(table.table, FileKey::HeightUs).is_some()
            || value_at(table.table, FileKey::SideUs).is_some())
}

/// Whether some node has one of the keys of coordinates.
pub(crate) fn has_placed_node(tables: &[PlacedTable<'_>]) -> bool
    ensures { result ≡ list_any is_placed_section (map section_of tables.now) }
{
    for table in tables {
        if is_placed_section(table) {
            return true;
        }
    }
    false
}

/// What the nodes of a file ask of its tables: lifetimes, and coordinates.
#[derive(Clone, Copy)]
pub(crate) struct Needs {
    pub churn: bool,
    pub coordinates: bool,
}

/// Whether some node churns, and whether some node has coordinates.
fn needs_of(tables: &[PlacedTable<'_>]) -> Needs
    ensures { result ≡ needs_of (map section_of tables.now) }
{
    Needs {
        churn: has_churn_node(tables),
        coordinates: has_placed_node(tables),
    }
}

/// Whether a key is required.
fn is_required(needs: Needs, table: &PlacedTable<'_>, presence: Presence) -> bool
    ensures { result ≡ is_required needs (section_of table.now) presence }
{
    match presence {
        Presence::Required => true,
        Presence::Optional => false,
        Presence::WithoutClasses => value_at(table.table, FileKey::Nodes).is_none(),
        Presence::ForChurn => needs.churn,
        Presence::ForCoordinates => needs.coordinates,
        Presence::ForJoin => matches!(operation_at(table.table), Some(Operation::Join)),
        Presence::ForLookup => matches!(operation_at(table.table), Some(Operation::Lookup)),
    }
}

/// Whether a required key is missing.
fn is_missing(needs: Needs, table: &PlacedTable<'_>, entry: &Entry) -> bool
    ensures { result ≡ is_missing needs (section_of table.now) entry.now }
{
    is_required(needs, table, entry.2) && value_at(table.table, entry.0).is_none()
}

/// The first required key that a table lacks.
fn missing_in(profile: u64, needs: Needs, table: &PlacedTable<'_>) -> Option<ScenarioFault>
    ensures { result ≡ key_fault_in profile MissingKey (is_missing needs) (section_of table.now) }
{
    let mut keys = keys_at(profile, table.at).iter();
    match keys.find(|entry| is_missing(needs, table, entry)) {
        Some(entry) => Some(ScenarioFault::MissingKey(table.at, entry.0)),
        None => None,
    }
}

/// The first required key that is missing.
#[tactic(auto, unfolding(crate::specs::KeyFaults::missing_key))]
pub(crate) fn missing_key(profile: u64, tables: &[PlacedTable<'_>]) -> Option<ScenarioFault>
    ensures { result ≡ missing_key profile (map section_of tables.now) }
{
    let needs = needs_of(tables);
    for table in tables {
        if let Some(fault) = missing_in(profile, needs, table) {
            return Some(fault);
        }
    }
    None
}

/// Whether a value has another type than its key wants.
fn has_wrong_type(table: &PlacedTable<'_>, entry: &Entry) -> bool
    ensures { result ≡ has_wrong_type (section_of table.now) entry.now }
{
    match value_at(table.table, entry.0) {
        Some(value) => !has_type(entry.1, value),
        None => false,
    }
}

/// The first key of a table whose value has another type.
fn wrong_type_in(profile: u64, table: &PlacedTable<'_>) -> Option<ScenarioFault>
    ensures { result ≡ key_fault_in profile WrongType has_wrong_type (section_of table.now) }
{
    let mut keys = keys_at(profile, table.at).iter();
    match keys.find(|entry| has_wrong_type(table, entry)) {
        Some(entry) => Some(ScenarioFault::WrongType(table.at, entry.0)),
        None => None,
    }
}

/// The first value that has another type than its key wants.
#[tactic(auto, unfolding(crate::specs::KeyFaults::wrong_type))]
pub(crate) fn wrong_type(profile: u64, tables: &[PlacedTable<'_>]) -> Option<ScenarioFault>
    ensures { result ≡ wrong_type profile (map section_of tables.now) }
{
    for table in tables {
        if let Some(fault) = wrong_type_in(profile, table) {
            return Some(fault);
        }
    }
    None
}

/// Whether a value is outside its range, or does not agree with another value of its table.
fn is_out_of_range(bits: u64, table: &PlacedTable<'_>, entry: &Entry) -> bool
    ensures { result ≡ is_out_of_range bits (section_of table.now) entry.now }
{
    match value_at(table.table, entry.0) {
        Some(value) => {
            // A value that is no whole number counts as 0 here: another question refuses it.
            !(is_in_range(bits, entry.1, value)
                && agrees(table.table, entry.0, whole(value).unwrap_or(0)))
        }
        None => false,
    }
}

/// The first key of a table whose value is outside its range.
fn out_of_range_in(profile: u64, bits: u64, table: &PlacedTable<'_>) -> Option<ScenarioFault>
    ensures { result ≡ key_fault_in profile OutOfRange (is_out_of_range bits) (section_of table.now) }
{
    let mut keys = keys_at(profile, table.at).iter();
    match keys.find(|entry| is_out_of_range(bits, table, entry)) {
        Some(entry) => Some(ScenarioFault::OutOfRange(table.at, entry.0)),
        None => None,
    }
}

/// The first value that is outside its range, on a circle of this many bits.
#[tactic(auto, unfolding(crate::specs::KeyFaults::out_of_range))]
pub(crate) fn out_of_range(
    profile: u64,
    bits: u64,
    tables: &[PlacedTable<'_>],
) -> Option<ScenarioFault>
    ensures { result ≡ out_of_range profile bits (map section_of tables.now) }
{
    for table in tables {
        if let Some(fault) = out_of_range_in(profile, bits, table) {
            return Some(fault);
        }
    }
    None
}
