//! Runs one event at a time.
ghost use Rattle.std.specs.Prelude.{◌≡◌, ◌⊎◌, false, IfErr};
ghost use Rattle.des_machine.specs.Runs.{IsRun};
ghost use Rattle.des_output.specs.Watched.{wrapped, has_failed};
ghost use Rattle.des_output.specs.Writing.{is_write};

use crate::engine::SerialEngine;
use des_event::RunError;
use des_machine::{Machine, Scribe};
use des_output::Watched;
use std::alloc::Global;
use std::io::Write;

/// Runs a machine one event at a time: a scribe writes its trace and returns its report. What was
/// written before an error is a beginning of the trace.
pub fn run_serial<M: Machine, S: Scribe<M> + Drop, W: Write>(
    alloc: Global,
    machine: &M,
    writer: &mut Watched<W>,
) -> Result<S::Report, RunError>
    requires sound { has_failed writer.old ≡ false }
    ensures run { IsRun (S.text machine.now) (M.model machine.now) (S.IsReport machine.now) (W.contents (wrapped writer.old)) (W.contents (wrapped writer.new)) result }
    ensures writer { has_failed writer.new ≡ is_write result }
    ensures only { IfErr result (λ e. (e ≡ RunError.Memory) ⊎ (e ≡ RunError.Write) ⊎ (e ≡ RunError.TooManyEvents)) }
{
    let mut engine = SerialEngine::<M, S>::start(alloc, machine)?;
    let outcome = engine.run(alloc, machine, writer);
    // By one call: at the end of a function a struct is dropped field by field.
    drop(engine);
    outcome
}
