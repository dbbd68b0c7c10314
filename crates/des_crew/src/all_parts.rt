//! All parts of a window, run by a crew.
ghost use Rattle.std.specs.Prelude.{◌≡◌, ◌<◌, ◌≤◌, Err, IsOk, OnOk, IfOk, IfErr};
ghost use Rattle.des_crew.specs.Seats.{IsWholeSeat, SeatState};
ghost use Rattle.des_crew.specs.Windows.{HasResults, IsJoinedShift, IsWindowFault};

use crate::draws::{Draws, MOST_SEATS};
use crate::hooks::{Gate, Starter};
use crate::joined_shift::JoinedShift;
use crate::part_runner::PartRunner;
use crate::shared::Shared;
use crate::workers::run_workers;
use des_event::RunError;
use std::alloc::Global;
use std::marker::{Send, Sync};
use std::sync::Wait;
use std::thread::Threads;

/// How many workers a crew has, and the gate that each of them passes before a part.
#[derive(Drop)]
pub struct Hands<'a, G> {
    pub workers: u32,
    pub gate: &'a G,
}

/// What the parts of a window leave, once its workers have ended. If the workers have a fault, it
/// is returned as it is.
fn close_window<P: PartRunner>(
    runner: &P,
    draws: Draws,
    joined: Result<JoinedShift<P::Done>, RunError>,
) -> Result<Vec<P::Done>, RunError>
    requires joined { IfOk joined (λ g. (seat : SeatState) × IsWholeSeat draws seat × IsJoinedShift (P.IsDone runner.now) seat g) }
    ensures done { IfOk result (λ dones. HasResults (P.IsDone runner.now) draws.parts dones.items) }
    ensures fault { IfErr joined (λ e. result ≡ Err e) }
    ensures whole { OnOk joined (IsOk result) }
{
    match joined {
        Ok(JoinedShift { seat, done }) => {
            draws.close(seat);
            Ok(done)
        }
        Err(fault) => Err(fault),
    }
}

/// Lets a crew run all parts of a window. Returns what they leave, in any order. Of several faults it
/// returns `Worker`, else `Memory`, else `TooManyEvents`.
pub(crate) fn run_all_parts<
    R: Threads + Wait + Sync,
    P: PartRunner + Sync,
    S: Starter,
    G: Gate + Sync,
>(
    rt: &R,
    alloc: Global,
    runner: &P,
    hands: &Hands<'_, G>,
    starter: &mut S,
) -> Result<Vec<P::Done>, RunError>
where
    P::Done: Send,
    P::Tools: Send,
    requires open { P.IsOpen runner.now }
    requires workers { (0 < hands.now.workers) × (hands.now.workers ≤ MOST_SEATS) }
    ensures done { IfOk result (λ dones. HasResults (P.IsDone runner.now) (P.part_count runner.now) dones.items) }
    ensures fault { IfErr result (IsWindowFault (P.IsOver runner.now)) }
{
    // New in each window: a seat that is dropped with a fault spoils the counter of one window
    // only, which then has no result.
    let (draws, seat) = Draws::start(alloc, runner.parts(), hands.workers)?;
    let shared = Shared {
        alloc,
        runner,
        draws: &draws,
        gate: hands.gate,
    };
    let joined = run_workers(rt, &shared, seat, 0, hands.workers, starter);
    close_window(runner, draws, joined)
}
