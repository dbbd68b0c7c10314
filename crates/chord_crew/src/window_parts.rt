//! One worker's window.
ghost use Rattle.std.specs.Prelude.{◌≡◌, []};
ghost use Rattle.chord_crew.specs.Shifts.{IsShift, IsWindowOf};

use chord_event::{Body, RunError};
use chord_window::{Done, Window, run_part};
use des_crew::{Draws, Gate, PartRunner, Seat, work_by};
use des_queue::WindowQueue;
use std::alloc::Global;

/// The result of a worker: its seat, what each of the parts that it drew leaves, and why it stopped
/// early, if it did.
pub type Shift = des_crew::Shift<Done>;

/// Runs the parts of a window by `run_part`.
#[derive(Clone, Copy)]
pub struct WindowParts<'a> {
    pub window: Window<'a>,
}

impl<'a> PartRunner for WindowParts<'a> {
    ghost use Rattle.chord_machine.specs.Run.{HasTooManyEvents};
    ghost use Rattle.chord_window.specs.PartRuns.{IsDone as Leaves, IsNextWindow};
    ghost use Rattle.des_parts.specs.PartRuns.{IsFresh};

    type Done = Done;

    type Tools = WindowQueue<Body>;

    ghost IsOpen = { λ parts. IsNextWindow parts.window.scenario.now parts.window.world.now parts.window.horizon };

    ghost part_count = { λ parts. parts.window.world.now.kernel.division.parts };

    ghost IsDone = { λ parts. Leaves parts.window.scenario.now parts.window.world.now parts.window.horizon };

    ghost IsOver = { λ parts. HasTooManyEvents parts.window.scenario.now };

    ghost AreClean = { IsFresh };

    fn parts(&self) -> u32 {
        let division = &self.window.world.kernel.division;
        division.recall_division();
        division.parts()
    }

    fn tools(&self, alloc: Global) -> WindowQueue<Body> {
        WindowQueue::new(alloc)
    }

    fn run(&self, part: u32, tools: &mut WindowQueue<Body>) -> Result<Done, RunError> {
        run_part(&self.window, part, tools)
    }
}

/// One worker's window: draws a part, passes the gate and runs the part, until no part is left or
/// one has a fault. The seat is new, and the draws have as many parts as the world's division. A
/// caller may run this on its own threads with one seat each, then join the seats and pass all
/// results to `chord_window::exchange`.
pub fn work<G: Gate>(window: &Window<'_>, draws: &Draws, seat: Seat, worker: u32, gate: &G) -> Shift
    requires window { IsWindowOf window.now.scenario.now window.now.world.now window.now.horizon draws.now }
    requires of { seat.table ≡ draws.now.table }
    requires new { seat.numbers ≡ [] }
    ensures { IsShift window.now.scenario.now window.now.world.now window.now.horizon seat result }
{
    let parts = WindowParts { window: *window };
    work_by(&parts, window.alloc, draws, seat, worker, gate)
}
