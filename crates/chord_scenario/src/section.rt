//! The tables of a scenario file.
ghost use Rattle.std.specs.Prelude.{◌≡◌, ◌++◌, IfOk, OnOk, map, option_map};
ghost use Rattle.toml.specs.View.{table_view, view, items_view};
ghost use Rattle.chord_scenario.specs.Sections.{section_of, table_at, tables_among, tables_of, sections};

use crate::key::{FileKey, Group, Place};
use crate::value::value_at;
use std::alloc::{AllocError, Global};
use toml::{Table, Value};

/// A table of a scenario file and its place.
#[derive(Clone, Copy)]
pub(crate) struct PlacedTable<'a> {
    pub at: Place,
    pub table: &'a Table,
}

/// Adds a value that is a table.
fn push_table<'a>(
    tables: &mut Vec<PlacedTable<'a>>,
    at: Place,
    value: Option<&'a Value>,
) -> Result<(), AllocError>
    ensures { OnOk result (map section_of tables.new.items ≡ map section_of tables.old.items ++ table_at at (option_map (λ v. view v.now) value.entry)) }
{
    if let Some(value) = value {
        if let Some(table) = value.as_table() {
            tables.push(PlacedTable { at, table })?;
        }
    }
    Ok(())
}

/// Adds the items that are tables.
fn push_items<'a>(
    tables: &mut Vec<PlacedTable<'a>>,
    group: Group,
    items: &'a [Value],
) -> Result<(), AllocError>
    ensures { OnOk result (map section_of tables.new.items ≡ map section_of tables.old.items ++ tables_among group 1 (items_view items.entry.now)) }
{
    for (i, item) in items.iter().enumerate() {
        push_table(tables, group.place(i + 1), Some(item))?;
    }
    Ok(())
}

/// Adds the tables of a group.
fn push_tables<'a>(
    tables: &mut Vec<PlacedTable<'a>>,
    group: Group,
    value: Option<&'a Value>,
) -> Result<(), AllocError>
    ensures { OnOk result (map section_of tables.new.items ≡ map section_of tables.old.items ++ tables_of group (option_map (λ v. view v.now) value.entry)) }
{
    if let Some(value) = value {
        if let Some(items) = value.as_array() {
            push_items(tables, group, items)?;
        }
    }
    Ok(())
}

/// Every table of a file, in the order of places.
#[tactic(auto, unfolding(crate::specs::Sections::sections))]
pub(crate) fn tables_in<'a>(
    alloc: Global,
    top: &'a Table,
) -> Result<Vec<PlacedTable<'a>>, AllocError>
    ensures { IfOk result (λ v. map section_of v.items ≡ sections (table_view top.now)) }
{
    let mut tables = Vec::new(alloc);
    tables.push(PlacedTable {
        at: Place::Top,
        table: top,
    })?;
    push_table(&mut tables, Place::Churn, value_at(top, FileKey::Churn))?;
    push_table(&mut tables, Place::Lookups, value_at(top, FileKey::Lookups))?;
    push_tables(&mut tables, Group::Nodes, value_at(top, FileKey::Node))?;
    push_tables(&mut tables, Group::Classes, value_at(top, FileKey::Nodes))?;
    push_tables(
        &mut tables,
        Group::Commands,
        value_at(top, FileKey::Command),
    )?;
    Ok(tables)
}
