//! From bytes to bytes: `load` and `play`.
ghost use Rattle.std.specs.Prelude.{◌≡◌, ◌≢◌, ◌⊎◌, false, IfErr, IfOk, OnOk, Ok, Err};
ghost use Rattle.des_event.specs.declared.error.RunError.{RunError};
ghost use Rattle.chord_play.specs.Faults.{is_of_run, is_write_fault};
ghost use Rattle.chord_play.specs.Played.{IsPlayed};
ghost use Rattle.chord_play.specs.Readings.{IsFaultOf, WasRead, reading};
ghost use Rattle.chord_play.specs.Texts.{Gives};
ghost use Rattle.des_output.specs.Watched.{wrapped, has_failed};

use crate::fault::{PlayFault, fault_of_text};
use crate::running::run_planned;
use crate::text_reader::read_text;
use chord_event::RunError;
use chord_plan::{Engine, Plan, Text};
use chord_scenario::{Scenario, read_scenario};
use chord_trace::{Report, Watched};
use des_crew::{AllStart, OpenGate};
use std::alloc::Global;
use std::io::{Read, Write};
use std::sync::Wait;
use std::thread::Threads;

/// Reads the scenario text and then the latency text, and returns their scenario or the first
/// fault. A text of more than 16,777,216 bytes is read one byte beyond that and no further.
pub fn load<R: Read, Q: Read>(
    alloc: Global,
    scenario: &mut Watched<R>,
    latency: &mut Watched<Q>,
) -> Result<Scenario, PlayFault>
    requires scenario_sound { has_failed scenario.old ≡ false }
    requires latency_sound { has_failed latency.old ≡ false }
    ensures accepted { IfOk result (Gives (R.remaining (wrapped scenario.old)) (Q.remaining (wrapped latency.old))) }
    ensures read { OnOk result (WasRead (reading R.remaining scenario.old scenario.new) × WasRead (reading Q.remaining latency.old latency.new)) }
    ensures faults { IfErr result (IsFaultOf (reading R.remaining scenario.old scenario.new) (reading Q.remaining latency.old latency.new)) }
    ensures memory { (e : RunError) → result ≡ Err (PlayFault.Run e) → e ≡ RunError.Memory }
{
    let toml = match read_text(alloc, scenario) {
        Ok(text) => text,
        Err(fault) => return Err(fault_of_text(Text::Scenario, fault)),
    };
    let csv = match read_text(alloc, latency) {
        Ok(text) => text,
        Err(fault) => return Err(fault_of_text(Text::Latency, fault)),
    };
    let scenario = read_scenario(alloc, toml.as_slice(), csv.as_slice())?;
    Ok(scenario)
}

/// Loads a scenario and runs it: writes its trace and returns its report. Neither depends on the
/// plan, which says by which engine, workers and parts. What was written before an error is a
/// beginning of the trace.
pub fn play<T: Threads + Wait + Sync, R: Read, Q: Read, W: Write>(
    rt: &T,
    alloc: Global,
    scenario: &mut Watched<R>,
    latency: &mut Watched<Q>,
    plan: &Plan,
    writer: &mut Watched<W>,
) -> Result<Report, PlayFault>
    requires scenario_sound { has_failed scenario.old ≡ false }
    requires latency_sound { has_failed latency.old ≡ false }
    requires writer_sound { has_failed writer.old ≡ false }
    ensures played { IfOk result (λ report. IsPlayed (R.remaining (wrapped scenario.old)) (Q.remaining (wrapped latency.old)) (W.contents (wrapped writer.old)) (W.contents (wrapped writer.new)) (Ok report)) }
    ensures stopped { (e : RunError) → result ≡ Err (PlayFault.Run e) → IsPlayed (R.remaining (wrapped scenario.old)) (Q.remaining (wrapped latency.old)) (W.contents (wrapped writer.old)) (W.contents (wrapped writer.new)) (Err e) ⊎ ((e ≡ RunError.Memory) × (writer.new ≡ writer.old)) }
    ensures read { OnOk result (WasRead (reading R.remaining scenario.old scenario.new) × WasRead (reading Q.remaining latency.old latency.new)) }
    ensures faults { IfErr result (IsFaultOf (reading R.remaining scenario.old scenario.new) (reading Q.remaining latency.old latency.new)) }
    ensures untouched { IfErr result (λ fault. is_of_run fault ≡ false → writer.new ≡ writer.old) }
    ensures writer { has_failed writer.new ≡ is_write_fault result }
    ensures worker { result ≡ Err (PlayFault.Run RunError.Worker) → plan.now.engine ≢ Engine.Serial }
    ensures only { (e : RunError) → result ≡ Err (PlayFault.Run e) → (e ≡ RunError.Memory) ⊎ (e ≡ RunError.Worker) ⊎ (e ≡ RunError.TooManyEvents) ⊎ (e ≡ RunError.Write) }
{
    let loaded = load(alloc, scenario, latency)?;
    let report = run_planned(rt, alloc, &loaded, plan, &mut AllStart, &OpenGate, writer)?;
    Ok(report)
}
