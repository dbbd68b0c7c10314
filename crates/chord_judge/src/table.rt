//! The table of lookups: its heading and its rows, as CSV.
ghost use Rattle.std.specs.Prelude.{◌≡◌, ◌++◌, OnOk, string_bytes};
ghost use Rattle.chord_judge.specs.Table.{cut_text, end_text, owner_text, row_text, rows_text, verdict_text};
ghost use Rattle.chord_judge.specs.declared.row.End.TheVariants as ended;
ghost use Rattle.chord_scenario.specs.World.{name_of};

use crate::row::{Answer, End, Row};
use chord_scenario::Scenario;
use std::alloc::AllocError;
use std::fmt::Write as _;

/// The heading of the table.
pub(crate) const HEADING: &str =
    "asker,key,begun_us,ended_us,us,hops,timeouts,named,right_owner,strict,defensible\n";

/// Adds the text of rows.
pub(crate) fn push_rows_text(
    text: &mut String,
    scenario: &Scenario,
    rows: &[Row],
) -> Result<(), AllocError>
    ensures { OnOk result (string_bytes text.new ≡ string_bytes text.old ++ rows_text scenario.now rows.now) }
{
    for row in rows {
        push_row_text(text, scenario, row)?;
    }
    Ok(())
}

/// Adds the text of a row.
fn push_row_text(text: &mut String, scenario: &Scenario, row: &Row) -> Result<(), AllocError>
    ensures { OnOk result (string_bytes text.new ≡ string_bytes text.old ++ row_text scenario.now row.now) }
{
    let begun = row.lookup.begun;
    let asker = name_of(scenario, row.lookup.asker);
    write!(text, "{asker},{},{begun},", row.lookup.key.raw())?;
    push_end(text, scenario, begun, row.end)
}

/// Adds the columns from the end of a lookup on.
fn push_end(text: &mut String, scenario: &Scenario, begun: u64, end: End) -> Result<(), AllocError>
    ensures { OnOk result (string_bytes text.new ≡ string_bytes text.old ++ end_text scenario.now begun end) }
{
    match end {
        End::Found { at, answer } => push_answer(text, scenario, at, begun, answer),
        End::Lost { at, hops, timeouts } => {
            let us = at.saturating_sub(begun);
            writeln!(text, "{at},{us},{hops},{timeouts},,,lost,lost")
        }
        End::Crash { at } => push_cut(text, at, begun, "cut-by-crash"),
        End::Leave { at } => push_cut(text, at, begun, "cut-by-leave"),
        End::Trace => text.push_str(",,,,,,cut-by-end,cut-by-end\n"),
    }
}

fn push_answer(
    text: &mut String,
    scenario: &Scenario,
    at: u64,
    begun: u64,
    answer: Answer,
) -> Result<(), AllocError>
    ensures { OnOk result (string_bytes text.new ≡ string_bytes text.old ++ end_text scenario.now begun (ended.Found at answer)) }
{
    let us = at.saturating_sub(begun);
    let Answer {
        hops,
        timeouts,
        strict,
        defensible,
        ..
    } = answer;
    let named = name_of(scenario, answer.named);
    let right_owner = owner_name(scenario, answer.right_owner);
    write!(text, "{at},{us},{hops},{timeouts},{named},{right_owner},")?;
    writeln!(text, "{},{}", verdict(strict), verdict(defensible))
}

fn push_cut(text: &mut String, at: u64, begun: u64, why: &str) -> Result<(), AllocError>
    ensures { OnOk result (string_bytes text.new ≡ string_bytes text.old ++ cut_text begun at why.now) }
{
    let us = at.saturating_sub(begun);
    writeln!(text, "{at},{us},,,,,{why},{why}")
}

fn verdict(holds: bool) -> &'static str
    ensures { result.now ≡ verdict_text holds }
{
    if holds { "right" } else { "wrong" }
}

/// The name of the right owner, and an empty text if there was none.
fn owner_name(scenario: &Scenario, owner: Option<u32>) -> &str
    ensures { result.now ≡ owner_text scenario.now owner }
{
    match owner {
        Some(owner) => name_of(scenario, owner),
        None => "",
    }
}

/// The name of a node, and an empty text if it is none of the scenario.
#[tactic(auto, unfolding(chord_scenario::specs::World::name_of))]
fn name_of(scenario: &Scenario, node: u32) -> &str
    ensures { result.now ≡ name_of scenario.now node }
{
    if node < scenario.nodes() {
        scenario.name(node)
    } else {
        ""
    }
}
