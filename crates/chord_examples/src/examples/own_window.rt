//! One window of a world, run by one worker on the calling thread.
ghost use Rattle.std.specs.Prelude.{IfOk};
ghost use Rattle.chord_window.specs.Ordering.{ArePartsDone};
ghost use Rattle.chord_window.specs.PartRuns.{IsNextWindow};

use chord_crew::{Draws, OpenGate, work};
use chord_event::RunError;
use chord_window::{Done, Window};

/// Runs a window by one worker on the calling thread, and returns what the parts leave.
pub fn window_by_one(window: &Window<'_>) -> Result<Vec<Done>, RunError>
    requires { IsNextWindow window.now.scenario.now window.now.world.now window.now.horizon }
    ensures { IfOk result (λ dones. ArePartsDone window.now.scenario.now window.now.world.now window.now.horizon dones.items) }
{
    let division = &window.world.kernel.division;
    division.recall_division();
    let parts = division.parts();
    let Ok((draws, seat)) = Draws::start(window.alloc, parts, 1) else {
        return Err(RunError::Memory);
    };
    let shift = work(window, &draws, seat, 0, &OpenGate);
    match shift.fault {
        None => {
            draws.close(shift.seat);
            Ok(shift.done)
        }
        Some(fault) => Err(fault),
    }
}
