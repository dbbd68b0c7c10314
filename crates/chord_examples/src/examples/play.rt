//! Texts of examples, and the plan and the lines of a report with which they are told.
use chord_event::RunError;
use chord_play::{Engine, Plan, Split};
use chord_trace::{Report, Watched};
use std::alloc::{AllocError, Global};

/// One event at a time.
pub const SERIAL: Plan = Plan {
    engine: Engine::Serial,
    workers: 1,
    parts: 1,
    split: Split::RoundRobin,
};

/// What all examples have in common.
pub const TOP: &str = "profile = 1\nbits = 3\nseed = 1\nlatency_us = 10\n";

/// The settings of most examples.
pub const SETTINGS: &str =
    "list = 2\nduration_us = 200\nwindow_us = 10\ntimeout_us = 40\naudit_us = 200\nstabilize_us = 1000\nfinger_us = 1000\n";

/// The ring of most examples.
pub const THREE: &str = "[[node]]\nname = \"n0\"\nid = 0\ninitial = true\n\
    [[node]]\nname = \"n1\"\nid = 1\ninitial = true\n\
    [[node]]\nname = \"n3\"\nid = 3\ninitial = true\n";

/// A scenario's text: what all have in common, its settings, its nodes and its commands.
pub fn text_of(
    alloc: Global,
    settings: &str,
    nodes: &str,
    commands: &str,
) -> Result<String, AllocError> {
    format!(in alloc; "{TOP}{settings}{nodes}{commands}")
}

/// The lines of a text that do not end with the number 0.
pub fn nonzero(alloc: Global, text: &str) -> Result<String, AllocError> {
    let mut lines = String::new(alloc);
    for line in text.lines() {
        if !line.ends_with(" 0") {
            lines.push_str(line)?;
            lines.push_str("\n")?;
        }
    }
    Ok(lines)
}

/// The lines of a report whose number is not 0.
pub fn shown(alloc: Global, report: &Report) -> Result<String, RunError> {
    let mut writer = Watched::new(Vec::with_capacity(alloc, 1024)?);
    report.write(alloc, &mut writer)?;
    let text = String::from_utf8_lossy(alloc, writer.into_inner().as_slice())?;
    Ok(nonzero(alloc, text.as_str())?)
}
