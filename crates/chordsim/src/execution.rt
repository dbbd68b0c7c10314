//! Carries out an order: opens its files, hands them on, and reports the outcome.
ghost use Rattle.std.specs.Prelude.{◌≡◌, ◌⊎◌, false, IfErr, IfOk};
ghost use Rattle.std.specs.Io.Buffered.{writer_inner};
ghost use Rattle.std.specs.Process.{exit_status};
ghost use Rattle.des_output.specs.Watched.{has_failed};

use crate::judging::{conclude_table, judge};
use crate::status::{Overwritten, conclude, refuse_output};
use chord_command::{Files, Order};
use chord_event::RunError;
use chord_play::{LatencyFile, Plan, PlayFault, Question, Text, or_write_fault, run, tell};
use chord_trace::Watched;
use std::alloc::Global;
use std::io::{BufWriter, Read, Write};
use std::os::unix::fs::MetadataExt;
use std::process::ExitCode;
use std::rt::Files as FileSystem;
use std::sync::Wait;
use std::thread::Threads;
use std::{fs, io};

/// Carries out the order, and returns the exit status: 0 on success, 1 if a file is refused, 2 if the output would
/// overwrite an input file, 3 if the run fails. What is printed goes to the console.
pub fn carry_out<T: FileSystem + AllocGlobal + Input + Threads + Wait + Sync, C: Print + Eprint>(
    rt: &T,
    console: &C,
    order: &Order,
) -> ExitCode
    ensures { (exit_status result ≡ 0) ⊎ (exit_status result ≡ 1) ⊎ (exit_status result ≡ 2) ⊎ (exit_status result ≡ 3) }
{
    let held = hold_standard_streams(rt);
    let status = match overwritten_by(rt, order) {
        Some(overwritten) => refuse_output(console, overwritten),
        None => obey(rt, console, order),
    };
    drop(held);
    status
}

/// Carries out an order that overwrites no input file.
fn obey<T: FileSystem + AllocGlobal + Input + Threads + Wait + Sync, C: Print + Eprint>(
    rt: &T,
    console: &C,
    order: &Order,
) -> ExitCode
    ensures { (exit_status result ≡ 0) ⊎ (exit_status result ≡ 1) ⊎ (exit_status result ≡ 2) ⊎ (exit_status result ≡ 3) }
{
    let files = order.files();
    match order {
        Order::Check(_) => {
            let outcome = tell_of(rt, console, files, Question::Counts);
            conclude(console, files, outcome)
        }
        Order::Ids(_) => {
            let outcome = tell_of(rt, console, files, Question::Idents);
            conclude(console, files, outcome)
        }
        Order::Judge { judging, .. } => {
            let outcome = judge(rt, console, files, judging);
            conclude_table(console, files, judging, outcome)
        }
        Order::Run { plan, trace, .. } => {
            let outcome = run_of(rt, console, files, plan, trace.as_ref());
            conclude(console, files, outcome)
        }
    }
}

/// Takes the descriptors of the standard streams that are closed. Without this, a file that is opened later gets one of
/// them, and what is meant for the stream is written into it. Nothing can be written to the root folder, and it is there
/// on every system.
fn hold_standard_streams<T: FileSystem>(rt: &T) -> Held<T::File> {
    (fs::open(rt, "/"), fs::open(rt, "/"), fs::open(rt, "/"))
}

/// What takes the place of the three streams, or of later descriptors if they are open.
type Held<F> = (io::Result<F>, io::Result<F>, io::Result<F>);

/// The input file that the order would overwrite.
fn overwritten_by<'a>(rt: &impl FileSystem, order: &'a Order) -> Option<Overwritten<'a>> {
    let (option, output, trace) = match order {
        Order::Run { trace, .. } => ("--trace", trace.as_ref()?, None),
        Order::Judge { judging, .. } => {
            ("--digest", judging.digest.as_ref()?, judging.trace.as_ref())
        }
        _ => return None,
    };
    let files = order.files();
    let inputs = [
        ("scenario", Some(&files.scenario)),
        ("latency", files.latency.as_ref()),
        ("trace", trace),
    ];
    for (what, input) in inputs {
        if let Some(name) = input {
            if is_same_file(rt, output, name) {
                return Some(Overwritten { option, what, name });
            }
        }
    }
    None
}

/// Whether both paths lead to one regular file, by links too. Other files, such as a terminal or `/dev/null`, are
/// not emptied when they are opened, so they may be named twice.
fn is_same_file(rt: &impl FileSystem, first: &str, second: &str) -> bool {
    match (fs::metadata(rt, first), fs::metadata(rt, second)) {
        (Ok(first), Ok(second)) => {
            first.is_file() && first.dev() == second.dev() && first.ino() == second.ino()
        }
        _ => false,
    }
}

/// Opens the files, and prints the answer to a question about their scenario.
fn tell_of<T: FileSystem + AllocGlobal, C: Print>(
    rt: &T,
    console: &C,
    files: &Files,
    asked: Question,
) -> Result<(), PlayFault> {
    let (mut scenario, mut latency) = open(rt, files)?;
    let mut output = Watched::new(io::writer(console));
    tell(rt.alloc(), asked, &mut scenario, &mut latency, &mut output)
}

/// Opens the files and runs their scenario. The files are opened in this order: the scenario file, the latency file, and
/// the file for the trace, which is created or emptied. What is printed goes to the console.
fn run_of<T: FileSystem + AllocGlobal + Threads + Wait + Sync, C: Print>(
    rt: &T,
    console: &C,
    files: &Files,
    plan: &Plan,
    trace: Option<&String>,
) -> Result<(), PlayFault> {
    let (mut scenario, mut latency) = open(rt, files)?;
    let mut output = Watched::new(io::writer(console));
    match trace {
        Some(name) => {
            let file = or_write_fault(fs::create(rt, name.as_str()))?;
            run_to(rt, &mut scenario, &mut latency, plan, file, &mut output)
        }
        None => {
            // Both writers hand each piece to the console at once, and the trace is flushed before the report
            // begins, so the two texts do not mix.
            let trace = io::writer(console);
            run_to(rt, &mut scenario, &mut latency, plan, trace, &mut output)
        }
    }
}

pub(crate) type Texts<F> = (Watched<F>, Watched<LatencyFile<F>>);

/// Opens the two files, the scenario file first.
pub(crate) fn open<T: FileSystem>(rt: &T, files: &Files) -> Result<Texts<T::File>, PlayFault>
    ensures scenario_sound { IfOk result (λ texts. has_failed texts.0 ≡ false) }
    ensures latency_sound { IfOk result (λ texts. has_failed texts.1 ≡ false) }
{
    let Ok(scenario) = fs::open(rt, files.scenario.as_str()) else {
        return Err(PlayFault::Read(Text::Scenario));
    };
    let latency = match &files.latency {
        None => LatencyFile::Absent,
        Some(name) => match fs::open(rt, name.as_str()) {
            Ok(file) => LatencyFile::Given(file),
            Err(_) => return Err(PlayFault::Read(Text::Latency)),
        },
    };
    Ok((Watched::new(scenario), Watched::new(latency)))
}

/// Runs with a buffer in front of the writer of the trace. If the run fails, the buffer is written when it is
/// dropped.
fn run_to<T: AllocGlobal + Threads + Wait + Sync, R: Read, Q: Read, V: Write + Drop, W: Write>(
    rt: &T,
    scenario: &mut Watched<R>,
    latency: &mut Watched<Q>,
    plan: &Plan,
    writer: V,
    output: &mut Watched<W>,
) -> Result<(), PlayFault>
    requires scenario_sound { has_failed scenario.old ≡ false }
    requires latency_sound { has_failed latency.old ≡ false }
    requires output_sound { has_failed output.old ≡ false }
{
    let mut trace = Watched::new(buffered(rt.alloc(), writer)?);
    run(rt, scenario, latency, plan, &mut trace, output)
}

/// A buffer in front of a writer. The only error is a failed allocation.
fn buffered<V: Write + Drop>(alloc: Global, writer: V) -> Result<BufWriter<V>, PlayFault>
    ensures memory { IfErr result (λ fault. fault ≡ PlayFault.Run RunError.Memory) }
    ensures inner { IfOk result (λ buffer. writer_inner buffer ≡ writer) }
{
    BufWriter::new(alloc, writer).map_err(|_| PlayFault::Run(RunError::Memory))
}
