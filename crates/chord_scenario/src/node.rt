//! The nodes of a scenario file.
ghost use Rattle.std.specs.Prelude.{◌≡◌, ◌<◌, ◌≤◌, ◌^◌, ◌++◌, IfOk, IfSome, OnOk, length, map, option_and_then};
ghost use Rattle.std.specs.List.{All};
ghost use Rattle.chord_circle.specs.Circle.{leading};
ghost use Rattle.chord_scenario.specs.Values.{data_at, identifier_of};
ghost use Rattle.toml.specs.View.{table_view};
ghost use Rattle.chord_scenario.specs.Sections.{section_of};
ghost use Rattle.chord_scenario.specs.Settings.{bootstraps_of, class_of, coordinates_at, coordinates_of, drawn_place, flags_at, identifier_at, name_at, node_of, nodes_at, nodes_of, numbered_node, places_at, places_of_class};

use crate::key::{FileKey, Place};
use crate::keys_check::has_placed_node;
use crate::name::Name;
use crate::section::PlacedTable;
use crate::setting::{Coordinates, Node};
use crate::value::{identifier_of, number_at, truth_at, value_at};
use chord_circle::{Circle, Ident, Raw};
use des_stream::Stream;
use std::alloc::{AllocError, Global};
use toml::Table;

/// The purpose of the words that decide where a node of a class is.
const PLACE_PURPOSE: u32 = 11;

/// The end of an axis of the plane, in microseconds.
const AXIS_END: u64 = 500_000_000;

/// The number of the identifier at a key, if the key holds one.
fn identifier_number(table: &Table, key: FileKey) -> Option<Raw>
    ensures { result ≡ option_and_then identifier_of (data_at key (table_view table.now)) }
{
    match value_at(table, key) {
        Some(value) => identifier_of(value),
        None => None,
    }
}

/// The identifier at a key, if the key holds one of the circle.
pub(crate) fn identifier_at(circle: Circle, table: &Table, key: FileKey) -> Option<Ident>
    ensures value { result ≡ identifier_at circle key (table_view table.now) }
    ensures on_circle { IfSome result (λ ident. ident < 2 ^ circle) }
{
    match identifier_number(table, key) {
        Some(number) => circle.ident(number),
        None => None,
    }
}

/// The text at a key, and the empty text if the key holds none.
pub(crate) fn name_at<'a>(table: &'a Table, key: FileKey) -> &'a str
    ensures { result.now ≡ name_at key (table_view table.now) }
{
    match value_at(table, key) {
        Some(value) => value.as_str().unwrap_or(""),
        None => "",
    }
}

/// The node that a table describes.
#[tactic(auto, unfolding(crate::specs::Settings::node_of))]
fn node(alloc: Global, circle: Circle, table: &Table) -> Result<Node, AllocError>
    ensures value { IfOk result (λ n. n ≡ node_of circle (table_view table.now)) }
    ensures on_circle { IfOk result (λ n. n.ident < 2 ^ circle) }
{
    let name = name_at(table, FileKey::Name);
    let ident = match identifier_at(circle, table, FileKey::Id) {
        Some(ident) => ident,
        None => circle.ident_of_name(name.as_bytes()),
    };
    let flags = flags_at(table);
    Ok(Node {
        name: Name::new(alloc, name)?,
        ident,
        initial: flags.initial,
        churn: flags.churn,
        bootstrap: flags.bootstrap,
    })
}

/// What a table says of each of its nodes: whether it is a member at the start, whether it goes down
/// and rises by itself, and whether it is a bootstrap node.
#[derive(Clone, Copy)]
pub(crate) struct Flags {
    pub initial: bool,
    pub churn: bool,
    pub bootstrap: bool,
}

/// What a table says of each of its nodes.
fn flags_at(table: &Table) -> Flags
    ensures { result ≡ flags_at (table_view table.now) }
{
    Flags {
        initial: truth_at(table, FileKey::Initial),
        churn: truth_at(table, FileKey::Churn),
        bootstrap: truth_at(table, FileKey::Bootstrap),
    }
}

/// The node of a number in a class.
#[tactic(auto, unfolding(crate::specs::Settings::numbered_node))]
fn numbered_node(
    alloc: Global,
    circle: Circle,
    prefix: &str,
    flags: Flags,
    number: u64,
) -> Result<Node, AllocError>
    ensures value { IfOk result (λ n. n ≡ numbered_node circle prefix.now flags number) }
    ensures on_circle { IfOk result (λ n. n.ident < 2 ^ circle) }
{
    let name = Name::numbered(alloc, prefix, number)?;
    let ident = circle.ident_of_name(name.as_str().as_bytes());
    Ok(Node {
        name,
        ident,
        initial: flags.initial,
        churn: flags.churn,
        bootstrap: flags.bootstrap,
    })
}

/// Adds the nodes of the class that a table describes.
fn push_class(
    alloc: Global,
    circle: Circle,
    table: &Table,
    nodes: &mut Vec<Node>,
) -> Result<(), AllocError>
    ensures value { OnOk result (nodes.new.items ≡ nodes.old.items ++ class_of circle (table_view table.now)) }
    ensures on_circle { OnOk result (All (λ n. n.ident < 2 ^ circle) nodes.old.items → All (λ n. n.ident < 2 ^ circle) nodes.new.items) }
{
    let prefix = name_at(table, FileKey::Prefix);
    let flags = flags_at(table);
    for number in 0..number_at(table, FileKey::Count) {
        nodes.push(numbered_node(alloc, circle, prefix, flags, number)?)?;
    }
    Ok(())
}

/// Adds the nodes that a table describes: one, or those of a class.
fn push_nodes(
    alloc: Global,
    circle: Circle,
    table: &PlacedTable<'_>,
    nodes: &mut Vec<Node>,
) -> Result<(), AllocError>
    ensures value { OnOk result (nodes.new.items ≡ nodes.old.items ++ nodes_at circle table.now.at (table_view table.now.table.now)) }
    ensures on_circle { OnOk result (All (λ n. n.ident < 2 ^ circle) nodes.old.items → All (λ n. n.ident < 2 ^ circle) nodes.new.items) }
{
    match table.at {
        Place::Node(_) => nodes.push(node(alloc, circle, table.table)?)?,
        Place::Nodes(_) => push_class(alloc, circle, table.table, nodes)?,
        _ => {}
    }
    Ok(())
}

/// The coordinates of a table: those of its node, or the corner of the places of a class.
fn coordinates_at(table: &Table) -> Coordinates
    ensures { result ≡ coordinates_at (table_view table.now) }
{
    Coordinates {
        x: number_at(table, FileKey::XUs),
        y: number_at(table, FileKey::YUs),
        height: number_at(table, FileKey::HeightUs),
    }
}

/// The place of a node in a square of this side, by the number of its class and its own number there. No place is beyond
/// the end of an axis.
fn drawn_place(seed: u64, class: usize, corner: Coordinates, side: u64, number: u64) -> Coordinates
    requires { side < 2 ^ 63 }
    ensures { result ≡ drawn_place seed class corner side number }
{
    let stream = Stream::for_purpose(seed, (number % (1 << 32)) as u32, PLACE_PURPOSE);
    let (x, y) = stream.numbers_in(class as u64, (side + 1, side + 1));
    Coordinates {
        x: corner.x.saturating_add(x).min(AXIS_END),
        y: corner.y.saturating_add(y).min(AXIS_END),
        height: corner.height,
    }
}

/// Adds the places of the nodes of a class.
fn push_class_places(
    seed: u64,
    class: usize,
    table: &Table,
    coordinates: &mut Vec<Coordinates>,
) -> Result<(), AllocError>
    ensures { OnOk result (coordinates.new.items ≡ coordinates.old.items ++ places_of_class seed class (table_view table.now)) }
{
    let corner = coordinates_at(table);
    let side = number_at(table, FileKey::SideUs);
    for number in 0..number_at(table, FileKey::Count) {
        coordinates.push(drawn_place(seed, class, corner, side, number))?;
    }
    Ok(())
}

/// Adds the places of the nodes that a table describes: of one, or of those of a class.
fn push_places(
    seed: u64,
    table: &PlacedTable<'_>,
    coordinates: &mut Vec<Coordinates>,
) -> Result<(), AllocError>
    ensures { OnOk result (coordinates.new.items ≡ coordinates.old.items ++ places_at seed table.now.at (table_view table.now.table.now)) }
{
    match table.at {
        Place::Node(_) => coordinates.push(coordinates_at(table.table))?,
        Place::Nodes(number) => {
            let class = number.saturating_sub(1);
            push_class_places(seed, class, table.table, coordinates)?;
        }
        _ => {}
    }
    Ok(())
}

/// The coordinates of the nodes of a file, in order, if nodes have them.
#[tactic(auto, unfolding(crate::specs::Settings::coordinates_of))]
pub(crate) fn coordinates(
    alloc: Global,
    seed: u64,
    tables: &[PlacedTable<'_>],
) -> Result<Vec<Coordinates>, AllocError>
    ensures { IfOk result (λ v. v.items ≡ coordinates_of seed (map section_of tables.now)) }
{
    let mut coordinates = Vec::new(alloc);
    if !has_placed_node(tables) {
        return Ok(coordinates);
    }
    for table in tables {
        push_places(seed, table, &mut coordinates)?;
    }
    Ok(coordinates)
}

/// The bootstrap nodes, in the order of the file.
#[tactic(auto, unfolding(crate::specs::Settings::bootstraps_of))]
pub(crate) fn bootstraps(alloc: Global, nodes: &[Node]) -> Result<Vec<u32>, AllocError>
    requires { length nodes.now ≤ 16842752 }
    ensures { IfOk result (λ v. v.items ≡ bootstraps_of nodes.now) }
{
    let mut bootstraps = Vec::new(alloc);
    for node in 0..nodes.len() as u32 {
        if nodes[node as usize].bootstrap {
            bootstraps.push(node)?;
        }
    }
    Ok(bootstraps)
}

/// The leading bits of the identifiers of nodes, in order.
pub(crate) fn leading_bits(
    alloc: Global,
    circle: Circle,
    nodes: &[Node],
) -> Result<Vec<u32>, AllocError>
    requires { All (λ n. n.ident < 2 ^ circle) nodes.now }
    ensures { IfOk result (λ v. v.items ≡ map (λ n. leading circle n.ident) nodes.now) }
{
    let mut leading = Vec::new(alloc);
    for node in nodes {
        leading.push(circle.leading(node.ident.raw()))?;
    }
    Ok(leading)
}

/// The nodes of a file, in order.
#[tactic(auto, unfolding(crate::specs::Settings::nodes_of))]
pub(crate) fn nodes(
    alloc: Global,
    circle: Circle,
    tables: &[PlacedTable<'_>],
) -> Result<Vec<Node>, AllocError>
    ensures value { IfOk result (λ v. v.items ≡ nodes_of circle (map section_of tables.now)) }
    ensures on_circle { IfOk result (λ v. All (λ n. n.ident < 2 ^ circle) v.items) }
{
    let mut nodes = Vec::new(alloc);
    for table in tables {
        push_nodes(alloc, circle, table, &mut nodes)?;
    }
    Ok(nodes)
}
