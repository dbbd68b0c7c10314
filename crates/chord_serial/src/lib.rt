//! The simulator that takes the pending events one at a time, in the order of time, origin and number.
#![tactic(auto)]

ghost use Rattle.std.specs.Prelude.{◌≡◌, ◌⊎◌, false, IfErr};
ghost use Rattle.chord_output.specs.Runs.{IsRun};
ghost use Rattle.des_output.specs.Watched.{wrapped, has_failed};
ghost use Rattle.des_output.specs.Writing.{is_write};

use chord_event::RunError;
use chord_output::{ActorRing, ChordScribe};
use chord_scenario::Scenario;
use chord_trace::{Report, Watched};
use std::alloc::Global;
use std::io::Write;

/// Runs a scenario one event at a time: writes its trace and returns its report. What was written
/// before an error is a beginning of the trace.
pub fn run_serial<W: Write>(
    alloc: Global,
    scenario: &Scenario,
    writer: &mut Watched<W>,
) -> Result<Report, RunError>
    requires sound { has_failed writer.old ≡ false }
    ensures run { IsRun scenario.now (W.contents (wrapped writer.old)) (W.contents (wrapped writer.new)) result }
    ensures writer { has_failed writer.new ≡ is_write result }
    ensures only { IfErr result (λ e. (e ≡ RunError.Memory) ⊎ (e ≡ RunError.Write) ⊎ (e ≡ RunError.TooManyEvents)) }
{
    let ring = ActorRing { scenario };
    des_serial::run_serial::<ActorRing<'_>, ChordScribe, W>(alloc, &ring, writer)
}
