//! Reading a scenario from its two texts.
ghost use Rattle.std.specs.Prelude.{◌≡◌, ◌==◌, ◌⊎◌, Some, None, IfOk, IfErr, map, length, ◌≤◌};
ghost use Rattle.chord_circle.specs.Circle.{leading};
ghost use Rattle.chord_scenario.specs.declared.key.FileKey.TheVariants as key;
ghost use Rattle.chord_scenario.specs.Values.{number_at};
ghost use Rattle.toml.specs.View.{table_view};
ghost use Rattle.chord_scenario.specs.Rows.{rows_of};
ghost use Rattle.chord_scenario.specs.Sections.{section_of, sections};
ghost use Rattle.chord_scenario.specs.Latencies.{HasLatencies, square_or_zeros};
ghost use Rattle.chord_scenario.specs.Settings.{bootstraps_of, commands_of, coordinates_of};
ghost use Rattle.chord_scenario.specs.Faults.{first_answer, same_name, row_names_unknown, bad_latency_row, file_fault, scenario_fault};
ghost use Rattle.chord_scenario.specs.Groups.{key_questions, node_questions, link_questions, pair_questions, late_questions};
ghost use Rattle.chord_scenario.specs.declared.fault.ScenarioFault.TheVariants.{UnknownNode};
ghost use Rattle.chord_scenario.specs.Search.{row_fault};
ghost use Rattle.chord_scenario.specs.Order.{AreInOrder, AreRanksOf};
ghost use Rattle.chord_scenario.specs.Range.{IsInRange};
ghost use Rattle.chord_scenario.specs.Accepted.{setup_with, IsSetupOf, Accepts};

use crate::command::{
    check_of, churn_of, commands, is_extended, jitters_of, join_pause_of, lookups_of, number_or,
    rules_of, small_number_at,
};
use crate::document::document;
use crate::fault::ScenarioFault;
use crate::key::FileKey;
use crate::keys_check::{missing_key, out_of_range, unknown_key, wrong_type};
use crate::latency::latencies;
use crate::link_check::{bad_latency_row, self_link, time_after_end, unknown_node};
use crate::names::Names;
use crate::node::{bootstraps, coordinates, leading_bits, nodes};
use crate::node_check::{bad_name, same_id, same_name, too_few_initial};
use crate::order::{KeptOrder, order_of};
use crate::row::Rows;
use crate::scenario::Scenario;
use crate::section::{PlacedTable, tables_in};
use crate::setting::{Command, Coordinates, Node};
use crate::value::{number_at, truth_at, truth_or};
use crate::window_check::{below_window, rows_and_coordinates};
use chord_circle::Circle;
use std::alloc::{AllocError, Global};
use toml::Table;

/// The first fault of keys, on a circle of this many bits.
fn key_fault(profile: u64, bits: u64, tables: &[PlacedTable<'_>]) -> Option<ScenarioFault>
    ensures { result ≡ first_answer (key_questions profile bits (map section_of tables.now)) }
{
    if let Some(fault) = unknown_key(profile, tables) {
        return Some(fault);
    }
    if let Some(fault) = missing_key(profile, tables) {
        return Some(fault);
    }
    if let Some(fault) = wrong_type(profile, tables) {
        return Some(fault);
    }
    out_of_range(profile, bits, tables)
}

/// The first fault of nodes.
fn node_fault(
    alloc: Global,
    tables: &[PlacedTable<'_>],
    names: &Names<'_>,
) -> Result<Option<ScenarioFault>, AllocError>
    ensures { IfOk result (λ found. found ≡ first_answer (node_questions (map section_of tables.now) names.now.nodes.now)) }
{
    if let Some(fault) = bad_name(tables) {
        return Ok(Some(fault));
    }
    if let Some(fault) = same_name(names) {
        return Ok(Some(fault));
    }
    same_id(alloc, names.nodes)
}

/// The first fault of commands and rows, each for itself.
fn link_fault(
    extended: bool,
    list: u64,
    duration: u64,
    tables: &[PlacedTable<'_>],
    rows: &Rows<'_>,
) -> Option<ScenarioFault>
    ensures { result ≡ first_answer (link_questions extended list duration (map section_of tables.now) rows.now.names.nodes.now (rows_of rows.now.text.now)) }
{
    if let Some(fault) = unknown_node(tables, rows) {
        return Some(fault);
    }
    if let Some(fault) = too_few_initial(extended, list, rows.names.nodes) {
        return Some(fault);
    }
    if let Some(fault) = time_after_end(duration, tables) {
        return Some(fault);
    }
    if let Some(fault) = bad_latency_row(rows) {
        return Some(fault);
    }
    self_link(extended, tables, rows)
}

/// The rows of a text, or the first fault of commands and rows, each for itself.
fn checked_rows<'a>(
    alloc: Global,
    top: &Table,
    tables: &[PlacedTable<'_>],
    names: Names<'a>,
    csv: &'a [u8],
) -> Result<Rows<'a>, ScenarioFault>
    ensures nodes { IfOk result (λ rows. rows.names.nodes.now ≡ names.entry.nodes.now) }
    ensures text { IfOk result (λ rows. rows.text.now ≡ csv.entry.now) }
    ensures sound { IfOk result (λ _. first_answer (link_questions (number_at key.Profile (table_view top.now) == 4) (number_at key.List (table_view top.now)) (number_at key.DurationUs (table_view top.now)) (map section_of tables.now) names.entry.nodes.now (rows_of csv.entry.now)) ≡ None) }
    ensures refused { IfErr result (λ e. (e ≡ ScenarioFault.Memory) ⊎ (first_answer (link_questions (number_at key.Profile (table_view top.now) == 4) (number_at key.List (table_view top.now)) (number_at key.DurationUs (table_view top.now)) (map section_of tables.now) names.entry.nodes.now (rows_of csv.entry.now)) ≡ Some e)) }
{
    let rows = Rows::read(alloc, names, csv)?;
    let list = number_at(top, FileKey::List);
    let duration = number_at(top, FileKey::DurationUs);
    match link_fault(is_extended(top), list, duration, tables, &rows) {
        Some(fault) => Err(fault),
        None => Ok(rows),
    }
}

/// How far apart nodes are: the square of latencies, which has no cells if there are no rows, and
/// the coordinates of nodes, if nodes have them.
#[derive(Drop)]
struct Distances {
    cells: Vec<u32>,
    coordinates: Vec<Coordinates>,
}

/// The distances of nodes, or the first fault of the pairs that rows or coordinates link.
fn checked_distances(
    alloc: Global,
    top: &Table,
    tables: &[PlacedTable<'_>],
    rows: &Rows<'_>,
) -> Result<Distances, ScenarioFault>
    requires few { length rows.now.names.nodes.now ≤ 16842752 }
    requires distinct { same_name rows.now.names.nodes.now ≡ None }
    requires known { row_fault UnknownNode (row_names_unknown rows.now.names.nodes.now) (rows_of rows.now.text.now) ≡ None }
    requires good { bad_latency_row (rows_of rows.now.text.now) ≡ None }
    ensures sound { IfOk result (λ _. first_answer (pair_questions (number_at key.WindowUs (table_view top.now)) (number_at key.LatencyUs (table_view top.now)) rows.now.names.nodes.now (coordinates_of (number_at key.Seed (table_view top.now)) (map section_of tables.now)) (rows_of rows.now.text.now)) ≡ None) }
    ensures coordinates { IfOk result (λ d. d.coordinates.items ≡ coordinates_of (number_at key.Seed (table_view top.now)) (map section_of tables.now)) }
    ensures square { IfOk result (λ d. HasLatencies rows.now.names.nodes.now (rows_of rows.now.text.now) (square_or_zeros (length rows.now.names.nodes.now) d.cells.items)) }
    ensures refused { IfErr result (λ e. (e ≡ ScenarioFault.Memory) ⊎ (first_answer (pair_questions (number_at key.WindowUs (table_view top.now)) (number_at key.LatencyUs (table_view top.now)) rows.now.names.nodes.now (coordinates_of (number_at key.Seed (table_view top.now)) (map section_of tables.now)) (rows_of rows.now.text.now)) ≡ Some e)) }
{
    let cells = latencies(alloc, rows)?;
    let window = number_at(top, FileKey::WindowUs);
    let default = number_at(top, FileKey::LatencyUs);
    let seed = number_at(top, FileKey::Seed);
    let coordinates = coordinates(alloc, seed, tables)?;
    if let Some(fault) = below_window(alloc, rows, &cells, &coordinates, default, window)? {
        return Err(fault);
    }
    match rows_and_coordinates(&coordinates, rows) {
        Some(fault) => Err(fault),
        None => Ok(Distances { cells, coordinates }),
    }
}

/// The commands of a scenario, and how far apart its nodes are.
#[derive(Drop)]
struct Linked {
    commands: Vec<Command>,
    distances: Distances,
}

/// The commands and the distances of nodes, or the first fault of what links nodes.
fn link_nodes(
    alloc: Global,
    circle: Circle,
    top: &Table,
    tables: &[PlacedTable<'_>],
    names: Names<'_>,
    csv: &[u8],
) -> Result<Linked, ScenarioFault>
    requires few { length names.nodes.now ≤ 16842752 }
    requires distinct { same_name names.nodes.now ≡ None }
    ensures sound { IfOk result (λ _. first_answer (late_questions (table_view top.now) (map section_of tables.now) names.entry.nodes.now (rows_of csv.now)) ≡ None) }
    ensures good { IfOk result (λ _. bad_latency_row (rows_of csv.now) ≡ None) }
    ensures commands { IfOk result (λ l. l.commands.items ≡ commands_of circle names.entry.nodes.now (map section_of tables.now)) }
    ensures coordinates { IfOk result (λ l. l.distances.coordinates.items ≡ coordinates_of (number_at key.Seed (table_view top.now)) (map section_of tables.now)) }
    ensures square { IfOk result (λ l. HasLatencies names.entry.nodes.now (rows_of csv.now) (square_or_zeros (length names.entry.nodes.now) l.distances.cells.items)) }
    ensures refused { IfErr result (λ e. (e ≡ ScenarioFault.Memory) ⊎ (first_answer (late_questions (table_view top.now) (map section_of tables.now) names.entry.nodes.now (rows_of csv.now)) ≡ Some e)) }
{
    let rows = checked_rows(alloc, top, tables, names, csv)?;
    let distances = checked_distances(alloc, top, tables, &rows)?;
    let commands = commands(alloc, circle, &rows.names, tables)?;
    Ok(Linked {
        commands,
        distances,
    })
}

/// The circle of a file without faults of keys.
fn circle_of(top: &Table) -> Circle
    requires least { 3 ≤ number_at key.Bits (table_view top.now) }
    requires greatest { number_at key.Bits (table_view top.now) ≤ 128 }
    ensures { result ≡ number_at key.Bits (table_view top.now) }
{
    match Circle::new(small_number_at(top, FileKey::Bits)) {
        Some(circle) => circle,
        None => unreachable!(),
    }
}

/// The circle of a file, or its first fault of keys.
fn checked_circle(top: &Table, tables: &[PlacedTable<'_>]) -> Result<Circle, ScenarioFault>
    requires { map section_of tables.now ≡ sections (table_view top.now) }
    ensures value { IfOk result (λ circle. circle ≡ number_at key.Bits (table_view top.now)) }
    ensures sound { IfOk result (λ _. first_answer (key_questions (number_at key.Profile (table_view top.now)) (number_at key.Bits (table_view top.now)) (sections (table_view top.now))) ≡ None) }
    ensures refused { IfErr result (λ e. first_answer (key_questions (number_at key.Profile (table_view top.now)) (number_at key.Bits (table_view top.now)) (sections (table_view top.now))) ≡ Some e) }
{
    let profile = number_at(top, FileKey::Profile);
    let bits = number_at(top, FileKey::Bits);
    match key_fault(profile, bits, tables) {
        Some(fault) => Err(fault),
        None => Ok(circle_of(top)),
    }
}

/// The names of nodes, or the first fault of nodes.
fn checked_names<'a>(
    alloc: Global,
    tables: &[PlacedTable<'_>],
    nodes: &'a [Node],
) -> Result<Names<'a>, ScenarioFault>
    requires { length nodes.now ≤ 16842752 }
    ensures nodes { IfOk result (λ names. names.nodes.now ≡ nodes.entry.now) }
    ensures sound { IfOk result (λ _. first_answer (node_questions (map section_of tables.now) nodes.entry.now) ≡ None) }
    ensures refused { IfErr result (λ e. (e ≡ ScenarioFault.Memory) ⊎ (first_answer (node_questions (map section_of tables.now) nodes.entry.now) ≡ Some e)) }
{
    let names = Names::new(alloc, nodes)?;
    match node_fault(alloc, tables, &names)? {
        Some(fault) => Err(fault),
        None => Ok(names),
    }
}

/// The nodes of a scenario, and what it keeps of them.
#[derive(Drop)]
struct NamedNodes {
    nodes: Vec<Node>,
    bootstraps: Vec<u32>,
    order: KeptOrder,
    leading: Vec<u32>,
}

/// The scenario of a table and rows, or the first fault of them.
#[tactic(auto, unfolding(crate::specs::Faults::file_fault))]
fn scenario_of(alloc: Global, top: &Table, csv: &[u8]) -> Result<Scenario, ScenarioFault>
    ensures sound { IfOk result (λ _. file_fault (table_view top.now) (rows_of csv.now) ≡ None) }
    ensures values { IfOk result (IsSetupOf (table_view top.now) (rows_of csv.now)) }
    ensures refused { IfErr result (λ e. (e ≡ ScenarioFault.Memory) ⊎ (file_fault (table_view top.now) (rows_of csv.now) ≡ Some e)) }
{
    let placed = tables_in(alloc, top)?;
    let tables = placed.as_slice();
    let circle = checked_circle(top, tables)?;
    let nodes = nodes(alloc, circle, tables)?;
    let names = checked_names(alloc, tables, nodes.as_slice())?;
    let linked = link_nodes(alloc, circle, top, tables, names, csv)?;
    let bootstraps = bootstraps(alloc, nodes.as_slice())?;
    let order = order_of(alloc, nodes.as_slice())?;
    let leading = leading_bits(alloc, circle, nodes.as_slice())?;
    let named = NamedNodes {
        nodes,
        bootstraps,
        order,
        leading,
    };
    Ok(assembled(circle, top, named, linked))
}

/// The scenario of a table, its nodes, and what links them.
fn assembled(circle: Circle, top: &Table, named: NamedNodes, linked: Linked) -> Scenario
    requires circle { circle ≡ number_at key.Bits (table_view top.now) }
    requires profile { number_at key.Profile (table_view top.now) ≤ 4 }
    requires coordinates { linked.distances.coordinates.items ≡ coordinates_of (number_at key.Seed (table_view top.now)) (sections (table_view top.now)) }
    requires bootstraps { named.bootstraps.items ≡ bootstraps_of named.nodes.items }
    requires ranks { AreRanksOf named.nodes.items named.order.ranks.items }
    requires in_order { AreInOrder named.order.ranks.items named.order.nodes.items }
    requires leading { named.leading.items ≡ map (λ n. leading circle n.ident) named.nodes.items }
    requires in_range { IsInRange (setup_with (table_view top.now) named.nodes.items linked.commands.items (square_or_zeros (length named.nodes.items) linked.distances.cells.items)) }
    ensures { result ≡ setup_with (table_view top.now) named.nodes.items linked.commands.items (square_or_zeros (length named.nodes.items) linked.distances.cells.items) }
{
    let extended = is_extended(top);
    Scenario {
        profile: small_number_at(top, FileKey::Profile),
        circle,
        list: small_number_at(top, FileKey::List),
        seed: number_at(top, FileKey::Seed),
        duration: number_at(top, FileKey::DurationUs),
        window: number_at(top, FileKey::WindowUs),
        latency: number_at(top, FileKey::LatencyUs),
        timeout: number_at(top, FileKey::TimeoutUs),
        audit: number_at(top, FileKey::AuditUs),
        stabilize: number_at(top, FileKey::StabilizeUs),
        finger: number_at(top, FileKey::FingerUs),
        jitter: number_or(top, FileKey::JitterUs, 0),
        max_events: number_or(top, FileKey::MaxEvents, 50_000_000),
        loss: number_or(top, FileKey::LossPpm, 0),
        spread: number_or(top, FileKey::SpreadUs, 0),
        retries: number_or(top, FileKey::Retries, 0),
        join_pause: join_pause_of(top, extended),
        join_forever: truth_or(top, FileKey::JoinForever, extended),
        check: check_of(top, extended),
        detail: truth_at(top, FileKey::Detail),
        rules: rules_of(top, extended),
        jitters: jitters_of(top),
        churn: churn_of(top),
        lookups: lookups_of(top),
        nodes: named.nodes,
        bootstraps: named.bootstraps,
        order: named.order,
        leading: named.leading,
        commands: linked.commands,
        latencies: linked.distances.cells,
        coordinates: linked.distances.coordinates,
    }
}

/// Reads a scenario from the text of a scenario file and that of a latency file. Returns the first
/// fault of the texts, or `Memory` if an allocation fails.
pub fn read_scenario(alloc: Global, toml: &[u8], csv: &[u8]) -> Result<Scenario, ScenarioFault>
    ensures accepted { IfOk result (Accepts toml.now csv.now) }
    ensures refused { IfErr result (λ e. (e ≡ ScenarioFault.Memory) ⊎ (scenario_fault toml.now csv.now ≡ Some e)) }
{
    let top = document(alloc, toml)?;
    scenario_of(alloc, &top, csv)
}
