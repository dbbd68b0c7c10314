//! The commands over any readers and writers: what they read, what they write, and the fault that they return.
ghost use Rattle.std.specs.Io.KnownBytes.{Keeps};
ghost use Rattle.std.specs.Prelude.{◌≡◌, ◌≢◌, ◌⊎◌, ◌||◌, false, Err, Ok, IfErr, IfOk, OnOk};
ghost use Rattle.chord_machine.specs.Run.{trace_text};
ghost use Rattle.chord_play.specs.Faults.{is_of_run, is_write_fault};
ghost use Rattle.chord_play.specs.Readings.{IsFaultOf, reading};
ghost use Rattle.des_output.specs.Watched.{wrapped, has_failed};
ghost use Rattle.chord_play.specs.Answers.{HasAnswered, HasBegun, HasReported, IsAnswered, IsOver, IsReported, told};

use crate::fault::PlayFault;
use crate::playing::{load, play};
use crate::questions::{Question, answer};
use chord_event::RunError;
use chord_plan::{Engine, Plan};
use chord_trace::{Watched, write_text};
use std::alloc::Global;
use std::io::{self, Read, Write};
use std::sync::Wait;
use std::thread::Threads;

/// Reads the two files, and writes the answer to a question about their scenario.
pub fn tell<R: Read, Q: Read, W: Write>(
    alloc: Global,
    question: Question,
    scenario: &mut Watched<R>,
    latency: &mut Watched<Q>,
    output: &mut Watched<W>,
) -> Result<(), PlayFault>
    requires scenario_sound { has_failed scenario.old ≡ false }
    requires latency_sound { has_failed latency.old ≡ false }
    requires output_sound { has_failed output.old ≡ false }
    ensures answered { OnOk result (IsAnswered (told question) (R.remaining (wrapped scenario.old)) (Q.remaining (wrapped latency.old)) (W.contents (wrapped output.old)) (W.contents (wrapped output.new))) }
    ensures beginning { (output.new ≡ output.old) ⊎ HasAnswered (told question) (R.remaining (wrapped scenario.old)) (Q.remaining (wrapped latency.old)) (W.contents (wrapped output.old)) (W.contents (wrapped output.new)) }
    ensures faults { IfErr result (IsFaultOf (reading R.remaining scenario.old scenario.new) (reading Q.remaining latency.old latency.new)) }
    ensures untouched { IfErr result (λ fault. fault ≢ PlayFault.Run RunError.Write → output.new ≡ output.old) }
    ensures writer { has_failed output.new ≡ is_write_fault result }
    ensures only { (e : RunError) → result ≡ Err (PlayFault.Run e) → (e ≡ RunError.Memory) ⊎ (e ≡ RunError.Write) }
{
    let scenario = load(alloc, scenario, latency)?;
    let text = answer(alloc, question, &scenario)?;
    write_text(text.as_bytes(), output)?;
    Ok(())
}

/// Reads the two files and runs their scenario. The trace goes to a writer of its own, which is flushed at the end;
/// then the report goes to the output.
pub fn run<T: AllocGlobal + Threads + Wait + Sync, R: Read, Q: Read, V: Write, W: Write>(
    rt: &T,
    scenario: &mut Watched<R>,
    latency: &mut Watched<Q>,
    plan: &Plan,
    trace: &mut Watched<V>,
    output: &mut Watched<W>,
) -> Result<(), PlayFault>
    requires scenario_sound { has_failed scenario.old ≡ false }
    requires latency_sound { has_failed latency.old ≡ false }
    requires trace_sound { has_failed trace.old ≡ false }
    requires output_sound { has_failed output.old ≡ false }
    ensures traced { OnOk result (IsAnswered trace_text (R.remaining (wrapped scenario.old)) (Q.remaining (wrapped latency.old)) (V.contents (wrapped trace.old)) (V.contents (wrapped trace.new))) }
    ensures reported { OnOk result (IsReported (R.remaining (wrapped scenario.old)) (Q.remaining (wrapped latency.old)) (W.contents (wrapped output.old)) (W.contents (wrapped output.new))) }
    ensures beginning { Keeps (V.contents (wrapped trace.old)) (V.contents (wrapped trace.new)) ⊎ HasBegun (R.remaining (wrapped scenario.old)) (Q.remaining (wrapped latency.old)) (V.contents (wrapped trace.old)) (V.contents (wrapped trace.new)) }
    ensures report_beginning { (output.new ≡ output.old) ⊎ HasReported (R.remaining (wrapped scenario.old)) (Q.remaining (wrapped latency.old)) (W.contents (wrapped output.old)) (W.contents (wrapped output.new)) }
    ensures faults { IfErr result (IsFaultOf (reading R.remaining scenario.old scenario.new) (reading Q.remaining latency.old latency.new)) }
    ensures untouched { IfErr result (λ fault. is_of_run fault ≡ false → (trace.new ≡ trace.old) × (output.new ≡ output.old)) }
    ensures writers { (has_failed trace.new || has_failed output.new) ≡ is_write_fault result }
    ensures over { result ≡ Err (PlayFault.Run RunError.TooManyEvents) → IsOver (R.remaining (wrapped scenario.old)) (Q.remaining (wrapped latency.old)) }
    ensures worker { result ≡ Err (PlayFault.Run RunError.Worker) → plan.now.engine ≢ Engine.Serial }
    ensures only { (e : RunError) → result ≡ Err (PlayFault.Run e) → (e ≡ RunError.Memory) ⊎ (e ≡ RunError.Worker) ⊎ (e ≡ RunError.TooManyEvents) ⊎ (e ≡ RunError.Write) }
{
    let report = play(rt, rt.alloc(), scenario, latency, plan, trace)?;
    or_write_fault(trace.flush())?;
    report.write(rt.alloc(), output)?;
    Ok(())
}

/// Turns an error of a writer into the error of a run whose writer failed.
pub fn or_write_fault<T: Drop>(outcome: io::Result<T>) -> Result<T, PlayFault>
    ensures ok { IfOk outcome (λ value. result ≡ Ok value) }
    ensures err { IfErr outcome (λ e. result ≡ Err (PlayFault.Run RunError.Write)) }
{
    outcome.map_err(|_| PlayFault::Run(RunError::Write))
}
