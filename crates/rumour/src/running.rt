//! Runs the rumour, and prints what it tells.
ghost use Rattle.std.specs.Prelude.{◌≡◌, ◌⊎◌, false, IfErr};
ghost use Rattle.des_machine.specs.Runs.{IsRun};
ghost use Rattle.des_output.specs.Watched.{wrapped, has_failed};
ghost use Rattle.des_protocol.specs.Numbered.{numbered};
ghost use Rattle.rumour_rules.specs.Rules.{rumour};
ghost use Rattle.rumour_rules.specs.Counts.{AreCounts};
ghost use Rattle.rumour.specs.Texts.{text_of};

use crate::scribe::RumourScribe;
use crate::spread::Spread;
use des_event::RunError;
use des_output::Watched;
use des_protocol::Numbered;
use des_serial::run_serial;
use rumour_rules::{Report, Settings};
use std::alloc::Global;
use std::io;
use std::io::Write;
use std::process::ExitCode;

/// The settings of the program.
const SETTINGS: Settings = Settings {
    nodes: 12,
    delay: 10,
    duration: 1_000_000,
    max_events: 1000,
};

/// Runs the rumour, writes its trace to the console and then its report, and returns the exit status:
/// 0, or 1 if the run or a write fails.
pub fn perform<T: AllocGlobal, C: Print>(rt: &T, console: &C) -> ExitCode {
    let Some(spread) = Spread::new(SETTINGS) else {
        return ExitCode::FAILURE;
    };
    let spread = Numbered { protocol: spread };
    let mut trace = Watched::new(io::writer(console));
    match run(rt.alloc(), &spread, &mut trace) {
        Ok(report) => print_report(console, report),
        Err(_) => ExitCode::FAILURE,
    }
}

/// Writes the trace of the rumour, and returns its report. What was written before an error is a
/// beginning of the trace.
fn run<W: Write>(
    alloc: Global,
    spread: &Numbered<Spread>,
    writer: &mut Watched<W>,
) -> Result<Report, RunError>
    requires sound { has_failed writer.old ≡ false }
    ensures run { IsRun text_of (numbered (rumour spread.now.protocol)) AreCounts (W.contents (wrapped writer.old)) (W.contents (wrapped writer.new)) result }
    ensures only { IfErr result (λ e. (e ≡ RunError.Memory) ⊎ (e ≡ RunError.Write) ⊎ (e ≡ RunError.TooManyEvents)) }
{
    run_serial::<Numbered<Spread>, RumourScribe, W>(alloc, spread, writer)
}

fn print_report<C: Print>(console: &C, report: Report) -> ExitCode {
    let Report { heard, told } = report;
    match println!(console; "heard {heard}\ntold {told}") {
        Ok(()) => ExitCode::SUCCESS,
        Err(_) => ExitCode::FAILURE,
    }
}
