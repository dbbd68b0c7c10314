//! The operations of commands.
ghost use Rattle.std.specs.Prelude.{◌≡◌};
ghost use Rattle.toml.specs.View.{table_view};
ghost use Rattle.chord_scenario.specs.Operations.{is_allowed, operation_named};
ghost use Rattle.chord_scenario.specs.Settings.{operation_at};

use crate::key::FileKey;
use crate::value::text_at;
use toml::Table;

/// What a command may ask of its node.
#[derive(Clone, Copy)]
pub(crate) enum Operation {
    Join,
    Crash,
    Leave,
    Lookup,
}

/// The operation that a word names, if it names one.
pub(crate) fn operation_named(word: &str) -> Option<Operation>
    ensures { result ≡ operation_named word.now }
{
    match word {
        "join" => Some(Operation::Join),
        "crash" => Some(Operation::Crash),
        "leave" => Some(Operation::Leave),
        "lookup" => Some(Operation::Lookup),
        _ => None,
    }
}

/// Whether a command may ask this. Nodes leave in the extended profile alone.
pub(crate) fn is_allowed(leaves: bool, operation: Option<Operation>) -> bool
    ensures { result ≡ is_allowed leaves operation }
{
    match operation {
        Some(Operation::Leave) => leaves,
        Some(_) => true,
        None => false,
    }
}

/// The operation of a command, if its table names one.
pub(crate) fn operation_at(table: &Table) -> Option<Operation>
    ensures { result ≡ operation_at (table_view table.now) }
{
    match text_at(table, FileKey::Do) {
        Some(word) => operation_named(word),
        None => None,
    }
}
