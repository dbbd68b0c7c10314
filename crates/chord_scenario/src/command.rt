//! The commands and the periods of a scenario file.

ghost use Rattle.std.specs.Prelude.{◌≡◌, ◌==◌, ◌<◌, ◌^◌, IfOk, map, option_map, option_and_then, unwrap_or};
ghost use Rattle.toml.specs.Data.{as_table};
ghost use Rattle.chord_scenario.specs.declared.key.FileKey.TheVariants as key;
ghost use Rattle.chord_scenario.specs.Values.{data_at, number_at, truth_or};
ghost use Rattle.toml.specs.View.{table_view};
ghost use Rattle.chord_scenario.specs.Sections.{section_of};
ghost use Rattle.chord_scenario.specs.Settings.{identifier_at, node_at, action_of, commands_of, number_or, span_of, check_of, churn_of, jitters_of, join_pause_of, lookups_of, rules_of};

use crate::key::{FileKey, Place};
use crate::names::Names;
use crate::node::{identifier_at, name_at};
use crate::operation::{Operation, operation_at};
use crate::scenario::EXTENDED_PROFILE;
use crate::section::PlacedTable;
use crate::setting::{Action, Churn, Command, Jitters, Rules, Span};
use crate::value::{number_at, truth_at, truth_or, value_at, whole};
use chord_circle::{Circle, Ident};
use std::alloc::{AllocError, Global};
use toml::Table;

/// The number of the node whose name is at a key.
fn node_at(names: &Names<'_>, table: &Table, key: FileKey) -> u32
    ensures { result ≡ node_at key names.now.nodes.now (table_view table.now) }
{
    names.number_of(name_at(table, key).as_bytes()).unwrap_or(0)
}

/// The key that a command looks up, and 0 if it has none.
fn key_of(circle: Circle, table: &Table) -> Ident
    ensures { result ≡ unwrap_or (identifier_at circle key.Key (table_view table.now)) 0 }
{
    match identifier_at(circle, table, FileKey::Key) {
        Some(key) => key,
        None => circle.low_bits(0),
    }
}

/// What a command asks of its node.
fn action_of(circle: Circle, names: &Names<'_>, table: &Table) -> Action
    ensures { result ≡ action_of circle names.now.nodes.now (table_view table.now) }
{
    match operation_at(table) {
        Some(Operation::Join) => Action::Join {
            via: node_at(names, table, FileKey::Via),
        },
        Some(Operation::Crash) => Action::Crash,
        Some(Operation::Leave) => Action::Leave,
        Some(Operation::Lookup) | None => Action::Lookup {
            key: key_of(circle, table),
        },
    }
}

/// The command that a table describes, which asks this.
fn command_that(names: &Names<'_>, table: &Table, action: Action) -> Command
    ensures { result ≡ record { at = number_at key.AtUs (table_view table.now); node = node_at key.Node names.now.nodes.now (table_view table.now); action = action } }
{
    Command {
        at: number_at(table, FileKey::AtUs),
        node: node_at(names, table, FileKey::Node),
        action,
    }
}

/// The commands of a file, in order.
#[tactic(auto, unfolding(crate::specs::Settings::commands_of, crate::specs::Settings::command_of))]
pub(crate) fn commands(
    alloc: Global,
    circle: Circle,
    names: &Names<'_>,
    tables: &[PlacedTable<'_>],
) -> Result<Vec<Command>, AllocError>
    ensures { IfOk result (λ v. v.items ≡ commands_of circle names.now.nodes.now (map section_of tables.now)) }
{
    let mut commands = Vec::new(alloc);
    for table in tables {
        if let Place::Command(_) = table.at {
            let action = action_of(circle, names, table.table);
            commands.push(command_that(names, table.table, action))?;
        }
    }
    Ok(commands)
}

/// The number at a key that is known to be small.
pub(crate) fn small_number_at(table: &Table, key: FileKey) -> u32
    requires { number_at key (table_view table.now) < 2 ^ 32 }
    ensures { result ≡ number_at key (table_view table.now) }
{
    number_at(table, key) as u32
}

/// The number at a key, and the default if the key holds none.
pub(crate) fn number_or(table: &Table, key: FileKey, default: u64) -> u64
    ensures { result ≡ number_or default key (table_view table.now) }
{
    match value_at(table, key) {
        Some(value) => whole(value).unwrap_or(default),
        None => default,
    }
}

/// Whether a file is of the extended profile.
pub(crate) fn is_extended(table: &Table) -> bool
    ensures { result ≡ (number_at key.Profile (table_view table.now) == 4) }
{
    number_at(table, FileKey::Profile) == u64::from(EXTENDED_PROFILE)
}

/// Which rules of published Chord the nodes follow. A file of the extended profile has those that
/// it does not switch off.
#[tactic(auto, unfolding(crate::specs::Settings::rules_of))]
pub(crate) fn rules_of(table: &Table, extended: bool) -> Rules
    ensures { result ≡ rules_of extended (table_view table.now) }
{
    let lookup_timeouts = if extended { 32 } else { 8 };
    Rules {
        list_routes: truth_or(table, FileKey::ListRoutes, extended),
        goes_on: truth_or(table, FileKey::GoesOn, extended),
        ask_owner: truth_or(table, FileKey::AskOwner, extended),
        lookup_timeouts: number_or(table, FileKey::LookupTimeouts, lookup_timeouts),
        drop_silent: truth_or(table, FileKey::DropSilent, extended),
        skip_near: truth_or(table, FileKey::SkipNear, extended),
        random_start: truth_or(table, FileKey::RandomStart, extended),
        clean_lists: truth_or(table, FileKey::CleanLists, extended),
        join_asks: truth_or(table, FileKey::JoinAsks, extended),
        create_alone: truth_at(table, FileKey::CreateAlone),
    }
}

/// How long a node waits between its attempts to join, in microseconds: in the extended profile as
/// long as for a reply, if the file does not say otherwise.
pub(crate) fn join_pause_of(table: &Table, extended: bool) -> u64
    ensures { result ≡ join_pause_of extended (table_view table.now) }
{
    let default = if extended {
        number_at(table, FileKey::TimeoutUs)
    } else {
        0
    };
    number_or(table, FileKey::JoinPauseUs, default)
}

/// The time from one check of a predecessor to the next in microseconds: in the extended profile
/// that from one stabilization to the next, if the file does not say otherwise.
pub(crate) fn check_of(table: &Table, extended: bool) -> u64
    ensures { result ≡ check_of extended (table_view table.now) }
{
    let default = if extended {
        number_at(table, FileKey::StabilizeUs)
    } else {
        0
    };
    number_or(table, FileKey::CheckUs, default)
}

/// How much later than its period each timer may come.
#[tactic(auto, unfolding(crate::specs::Settings::jitters_of))]
pub(crate) fn jitters_of(table: &Table) -> Jitters
    ensures { result ≡ jitters_of (table_view table.now) }
{
    let jitter = number_or(table, FileKey::JitterUs, 0);
    Jitters {
        stabilize: number_or(table, FileKey::StabilizeJitterUs, jitter),
        finger: number_or(table, FileKey::FingerJitterUs, jitter),
        check: number_or(table, FileKey::CheckJitterUs, jitter),
    }
}

/// The numbers from the one at a key to the one at another.
fn span_of(table: &Table, least: FileKey, greatest: FileKey) -> Span
    ensures { result ≡ span_of least greatest (table_view table.now) }
{
    Span {
        least: number_at(table, least),
        greatest: number_at(table, greatest),
    }
}

/// The table at a key, if the key holds one.
fn table_at<'a>(table: &'a Table, key: FileKey) -> Option<&'a Table>
    ensures { option_map (λ t. table_view t.now) result ≡ option_and_then as_table (data_at key (table_view table.now)) }
{
    match value_at(table, key) {
        Some(value) => value.as_table(),
        None => None,
    }
}

/// How long nodes live and stay down and how many leave, if the file says so.
#[tactic(auto, unfolding(crate::specs::Settings::churn_of))]
pub(crate) fn churn_of(top: &Table) -> Option<Churn>
    ensures { result ≡ churn_of (table_view top.now) }
{
    match table_at(top, FileKey::Churn) {
        Some(table) => Some(Churn {
            life: span_of(table, FileKey::LifeMinUs, FileKey::LifeMaxUs),
            down: span_of(table, FileKey::DownMinUs, FileKey::DownMaxUs),
            leave: number_or(table, FileKey::LeavePpm, 0),
        }),
        None => None,
    }
}

/// How long a node waits between its own lookups, if the file says so.
#[tactic(auto, unfolding(crate::specs::Settings::lookups_of))]
pub(crate) fn lookups_of(top: &Table) -> Option<Span>
    ensures { result ≡ lookups_of (table_view top.now) }
{
    match table_at(top, FileKey::Lookups) {
        Some(table) => Some(span_of(table, FileKey::GapMinUs, FileKey::GapMaxUs)),
        None => None,
    }
}
