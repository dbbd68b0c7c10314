//! The parts of a world's next window.
ghost use Rattle.std.specs.Prelude.{◌≡◌, [], IfOk};
ghost use Rattle.des_crew.specs.Shifts.{IsShift};
ghost use Rattle.des_crew.specs.Worlds.{IsWindowOf};
ghost use Rattle.des_model.specs.Histories.{IsOverLimit};
ghost use Rattle.des_parts.specs.PartRuns.{IsDone};

use crate::draws::Draws;
use crate::hooks::Gate;
use crate::part_runner::PartRunner;
use crate::seat::Seat;
use crate::shift::{Shift, work_by};
use des_event::RunError;
use des_machine::Machine;
use des_parts::{CopiesStates, Done, Window, run_part};
use des_queue::WindowQueue;
use std::alloc::Global;

/// Runs the parts of a window by `run_part`.
#[derive(Drop)]
pub struct WindowParts<'w, 'a, M: Machine> {
    pub window: &'w Window<'a, M>,
}

impl<'w, 'a, M: CopiesStates> PartRunner for WindowParts<'w, 'a, M> {
    ghost use Rattle.des_model.specs.Histories.{IsOverLimit};
    ghost use Rattle.des_parts.specs.PartRuns.{IsDone as LeavesDone, IsFresh, IsNextWindow};

    type Done = Done<M::State, M::Body, M::Piece>;

    type Tools = WindowQueue<M::Body>;

    ghost IsOpen = { λ r. IsNextWindow (M.model r.window.now.machine.now) r.window.now.world.now r.window.now.horizon };

    ghost part_count = { λ r. r.window.now.world.now.division.parts };

    ghost IsDone = { λ r. LeavesDone (M.model r.window.now.machine.now) (M.Known r.window.now.machine.now) r.window.now.world.now r.window.now.horizon };

    ghost IsOver = { λ r. IsOverLimit (M.model r.window.now.machine.now) };

    ghost AreClean = { IsFresh };

    fn parts(&self) -> u32 {
        let division = &self.window.world.division;
        division.recall_division();
        division.parts()
    }

    fn tools(&self, alloc: Global) -> WindowQueue<M::Body> {
        WindowQueue::new(alloc)
    }

    fn run(
        &self,
        part: u32,
        tools: &mut WindowQueue<M::Body>,
    ) -> Result<Done<M::State, M::Body, M::Piece>, RunError> {
        run_part(self.window, part, tools)
    }
}

/// One worker's window: draws a part, passes the gate and runs the part, until no part is left or
/// one has a fault. The seat is new, and the draws have as many parts as the world's division. A
/// caller may run this on its own threads with one seat each, then join the seats and pass all
/// results to `des_parts::exchange`.
pub fn work<M: CopiesStates, G: Gate>(
    window: &Window<'_, M>,
    draws: &Draws,
    seat: Seat,
    worker: u32,
    gate: &G,
) -> Shift<Done<M::State, M::Body, M::Piece>>
    requires window { IsWindowOf (M.model window.now.machine.now) window.now.world.now window.now.horizon draws.now }
    requires of { seat.table ≡ draws.now.table }
    requires new { seat.numbers ≡ [] }
    ensures { IsShift (IsDone (M.model window.now.machine.now) (M.Known window.now.machine.now) window.now.world.now window.now.horizon) (IsOverLimit (M.model window.now.machine.now)) seat result }
{
    let runner = WindowParts { window };
    work_by(&runner, window.alloc, draws, seat, worker, gate)
}
