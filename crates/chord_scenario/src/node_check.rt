//! The faults of nodes: a bad name, one name twice, one identifier twice, too few that begin as members.

ghost use Rattle.std.specs.Prelude.{◌≡◌, IfOk, map, take, find, option_map, option_copied, bytes_eq, ◌==◌, count_by};
ghost use Rattle.std.specs.List.{list_all, enumerate_from};
ghost use Rattle.toml.specs.View.{table_view};
ghost use Rattle.chord_scenario.specs.Sections.{section_of};
ghost use Rattle.chord_scenario.specs.Index.{NumbersIdents};
ghost use Rattle.chord_scenario.specs.Faults.{is_name_byte, is_name, is_prefix, has_bad_name, bad_name, same_name, same_id, too_few_initial};

use crate::fault::ScenarioFault;
use crate::key::{FileKey, Place};
use crate::name::Name;
use crate::names::Names;
use crate::node::name_at;
use crate::section::PlacedTable;
use crate::setting::Node;
use chord_circle::{Ident, Raw};
use std::alloc::{AllocError, Global};
use std::collections::BTreeMap;

/// Whether a name may contain this byte.
fn is_name_byte(byte: u8) -> bool
    ensures { result ≡ is_name_byte byte }
{
    byte.is_ascii_alphanumeric() || byte == b'.' || byte == b'_' || byte == b'-'
}

/// Whether a name may contain each of these bytes.
fn are_name_bytes(bytes: &[u8]) -> bool
    ensures { result ≡ list_all is_name_byte bytes.now }
{
    bytes.iter().all(|byte| is_name_byte(*byte))
}

/// Whether a text is a name.
#[tactic(auto, unfolding(crate::specs::Faults::is_name))]
fn is_name(name: &str) -> bool
    ensures { result ≡ is_name name.now }
{
    let bytes = name.as_bytes();
    1 <= bytes.len() && bytes.len() <= 32 && are_name_bytes(bytes) && name != "audit"
}

/// Whether a text is a prefix that the names of a class of nodes may have.
#[tactic(auto, unfolding(crate::specs::Faults::is_prefix))]
fn is_prefix(prefix: &str) -> bool
    ensures { result ≡ is_prefix prefix.now }
{
    let bytes = prefix.as_bytes();
    1 <= bytes.len() && bytes.len() <= 25 && are_name_bytes(bytes)
}

/// Whether a table is a node whose name is no name, or a class whose prefix is none.
fn has_bad_name(table: &PlacedTable<'_>) -> bool
    ensures { result ≡ has_bad_name table.now.at (table_view table.now.table.now) }
{
    match table.at {
        Place::Node(_) => !is_name(name_at(table.table, FileKey::Name)),
        Place::Nodes(_) => !is_prefix(name_at(table.table, FileKey::Prefix)),
        _ => false,
    }
}

/// The first node whose name is no name, or the first class whose prefix is none.
#[tactic(auto, unfolding(crate::specs::Faults::bad_name))]
pub(crate) fn bad_name(tables: &[PlacedTable<'_>]) -> Option<ScenarioFault>
    ensures { result ≡ bad_name (map section_of tables.now) }
{
    for table in tables {
        if has_bad_name(table) {
            return Some(ScenarioFault::BadName(table.at));
        }
    }
    None
}

/// The number, from 1, of the first node of this name, if it is one of the first so many nodes.
fn namesake(names: &Names<'_>, before: usize, name: &Name) -> Option<usize>
    ensures { result ≡ option_map (λ p. p.0) (find (λ p. bytes_eq p.1.name name.now) (enumerate_from 1 (take before names.now.nodes.now))) }
{
    match names.number_of(name.as_str().as_bytes()) {
        Some(number) if (number as usize) < before => Some(number as usize + 1),
        _ => None,
    }
}

/// The first node that has the name of an earlier one.
#[tactic(auto, unfolding(crate::specs::Faults::same_name))]
pub(crate) fn same_name(names: &Names<'_>) -> Option<ScenarioFault>
    ensures { result ≡ same_name names.now.nodes.now }
{
    let nodes = names.nodes;
    for (j, node) in nodes.iter().enumerate() {
        if let Some(earlier) = namesake(names, j, &node.name) {
            return Some(ScenarioFault::SameName(earlier, j + 1));
        }
    }
    None
}

/// Maps the identifier of each node to its number. One that several nodes have is mapped to the
/// first.
fn numbers_by_ident(alloc: Global, nodes: &[Node]) -> Result<BTreeMap<Raw, usize>, AllocError>
    ensures { IfOk result (NumbersIdents nodes.now) }
{
    let mut map = BTreeMap::new(alloc);
    let mut i = nodes.len();
    while i > 0 {
        i -= 1;
        map.insert(nodes[i].ident.raw(), i)?;
    }
    Ok(map)
}

/// The first node of this identifier, if it is one of the first so many nodes.
fn node_at_ident<'a>(
    nodes: &'a [Node],
    numbers: &BTreeMap<Raw, usize>,
    before: usize,
    ident: Ident,
) -> Option<&'a Node>
    requires { NumbersIdents nodes.now numbers.now }
    ensures { option_copied result ≡ option_map (λ p. p.1) (find (λ p. p.1.ident == ident) (enumerate_from 1 (take before nodes.entry.now))) }
{
    match numbers.get(&ident.raw()).copied() {
        Some(number) if number < before => nodes.get(number),
        _ => None,
    }
}

/// The first node that has the identifier of an earlier one.
#[tactic(auto, unfolding(crate::specs::Faults::same_id))]
pub(crate) fn same_id(alloc: Global, nodes: &[Node]) -> Result<Option<ScenarioFault>, AllocError>
    ensures { IfOk result (λ found. found ≡ same_id nodes.now) }
{
    let numbers = numbers_by_ident(alloc, nodes)?;
    for (j, node) in nodes.iter().enumerate() {
        if let Some(earlier) = node_at_ident(nodes, &numbers, j, node.ident) {
            let first = Name::new(alloc, earlier.name.as_str())?;
            let second = Name::new(alloc, node.name.as_str())?;
            return Ok(Some(ScenarioFault::SameId(first, second)));
        }
    }
    Ok(None)
}

/// How many nodes begin as members.
fn initial_count(nodes: &[Node]) -> usize
    ensures { result ≡ count_by (λ x. x.initial) nodes.now }
{
    nodes.iter().filter(|node| node.initial).count()
}

/// The fault if fewer nodes begin as members than a successor list of this length has with its
/// owner. In the extended profile a ring may begin with any number.
#[tactic(auto, unfolding(crate::specs::Faults::too_few_initial))]
pub(crate) fn too_few_initial(extended: bool, list: u64, nodes: &[Node]) -> Option<ScenarioFault>
    ensures { result ≡ too_few_initial extended list nodes.now }
{
    if !extended && initial_count(nodes) as u64 <= list {
        Some(ScenarioFault::TooFewInitial)
    } else {
        None
    }
}
