//! The threads of a window's workers: how they are started and joined.
ghost use Rattle.std.specs.Prelude.{◌≡◌, ◌+◌, ◌<◌, ◌≤◌, [], IfOk, IfErr};
ghost use Rattle.std.specs.Thread.{IsSync};
ghost use Rattle.des_crew.specs.Windows.{IsJoinedShift, IsWindowFault, joined_seats};

use crate::draws::MOST_SEATS;
use crate::hooks::{Gate, Starter};
use crate::joined_shift::{JoinedShift, alone, gather};
use crate::part_runner::PartRunner;
use crate::seat::Seat;
use crate::shared::{Shared, ShiftOf};
use crate::shift::{Shift, work_by};
use des_event::RunError;
use std::marker::{Send, Sync};
use std::snapshot::Snapshot;
use std::sync::Wait;
use std::thread;
use std::thread::{PromisedHandle, Scope, Threads};

/// Starts a worker's thread, if the starter allows it. Its result is the shift of this seat.
fn start_worker<'s, E, P: PartRunner + Sync + 's, S: Starter, G: Gate + Sync + 's>(
    scope: &Scope<'s, E>,
    shared: &Shared<'s, P, G>,
    seat: Seat,
    worker: u32,
    starter: &mut S,
) -> Result<PromisedHandle<Shift<P::Done>, ShiftOf<'s, P>>, RunError>
where
    P::Done: Send,
    P::Tools: Send,
    requires open { P.IsOpen shared.now.runner.now }
    requires parts { shared.now.draws.now.parts ≡ P.part_count shared.now.runner.now }
    requires of { seat.table ≡ shared.now.draws.now.table }
    requires new { seat.numbers ≡ [] }
    ensures runner { IfOk result (λ child. child.promise.runner.now ≡ shared.now.runner.now) }
    ensures seat { IfOk result (λ child. child.promise.seat.value ≡ seat) }
    ensures refused { IfErr result (λ e. e ≡ RunError.Worker) }
{
    if !starter.may_start(worker) {
        return Err(RunError::Worker);
    }
    // Taken apart, since a closure that captures a struct of references loses its postcondition.
    let &Shared {
        alloc,
        runner,
        draws,
        gate,
    } = shared;
    let promise = ShiftOf {
        runner,
        seat: Snapshot::of(&seat),
    };
    let started = scope.spawn_with(promise, move || {
        work_by(runner, alloc, draws, seat, worker, gate)
    });
    match started {
        Ok(child) => Ok(child),
        Err(_refused) => Err(RunError::Worker),
    }
}

/// Starts a thread for each of the `left` workers from this one on, joins them, and gathers their
/// results. The seat has 1 of the allowance for each of them. Worker 0 has a thread too: if the
/// calling thread ran its parts, a gate could block the thread that has to join the others.
#[cycle(workers)]
pub(crate) fn run_workers<
    R: Threads + Wait + Sync,
    P: PartRunner + Sync,
    S: Starter,
    G: Gate + Sync,
>(
    rt: &R,
    shared: &Shared<'_, P, G>,
    seat: Seat,
    worker: u32,
    left: u32,
    starter: &mut S,
) -> Result<JoinedShift<P::Done>, RunError>
where
    P::Done: Send,
    P::Tools: Send,
    requires open { P.IsOpen shared.now.runner.now }
    requires parts { shared.now.draws.now.parts ≡ P.part_count shared.now.runner.now }
    requires of { seat.table ≡ shared.now.draws.now.table }
    requires new { seat.numbers ≡ [] }
    requires allowance { seat.allowance ≡ left }
    requires some { 0 < left }
    requires few { worker + left ≤ MOST_SEATS }
    ensures ok { IfOk result (IsJoinedShift (P.IsDone shared.now.runner.now) seat) }
    ensures fault { IfErr result (IsWindowFault (P.IsOver shared.now.runner.now)) }
{
    if left == 1 {
        return run_last(rt, shared, seat, worker, starter);
    }
    let mut seat = seat;
    let mine = shared.draws.split(&mut seat);
    // A closure that captures a struct of references loses its postcondition: the struct is taken
    // apart here and built again inside.
    let &Shared {
        alloc,
        runner,
        draws,
        gate,
    } = shared;
    thread::scope(
        thread::scope_env(),
        rt,
        |scope| -> Result<JoinedShift<P::Done>, RunError>
            requires sync { IsSync G.row × IsSync R.row × IsSync P.row }
            requires open { P.IsOpen runner.now }
            requires parts { draws.now.parts ≡ P.part_count runner.now }
            requires of { (seat.table ≡ draws.now.table) × (mine.table ≡ draws.now.table) }
            requires new { (seat.numbers ≡ []) × (mine.numbers ≡ []) }
            requires allowance { (seat.allowance + 1 ≡ left) × (mine.allowance ≡ 1) }
            requires some { 1 < left }
            requires few { worker + left ≤ MOST_SEATS }
            ensures ok { IfOk result (IsJoinedShift (P.IsDone runner.entry.now) (joined_seats seat mine)) }
            ensures fault { IfErr result (IsWindowFault (P.IsOver runner.entry.now)) }
        {
            let shared = Shared {
                alloc,
                runner,
                draws,
                gate,
            };
            let child = start_worker(scope, &shared, mine, worker, starter)?;
            let others = run_workers(rt, &shared, seat, worker + 1, left - 1, starter);
            gather(draws, others, child.join(rt))
        },
    )
}

/// Runs the last worker, with the seat that is left.
fn run_last<R: Threads + Wait + Sync, P: PartRunner + Sync, S: Starter, G: Gate + Sync>(
    rt: &R,
    shared: &Shared<'_, P, G>,
    seat: Seat,
    worker: u32,
    starter: &mut S,
) -> Result<JoinedShift<P::Done>, RunError>
where
    P::Done: Send,
    P::Tools: Send,
    requires open { P.IsOpen shared.now.runner.now }
    requires parts { shared.now.draws.now.parts ≡ P.part_count shared.now.runner.now }
    requires of { seat.table ≡ shared.now.draws.now.table }
    requires new { seat.numbers ≡ [] }
    ensures ok { IfOk result (IsJoinedShift (P.IsDone shared.now.runner.now) seat) }
    ensures fault { IfErr result (IsWindowFault (P.IsOver shared.now.runner.now)) }
{
    // A closure that captures a struct of references loses its postcondition: the struct is taken
    // apart here and built again inside.
    let &Shared {
        alloc,
        runner,
        draws,
        gate,
    } = shared;
    thread::scope(
        thread::scope_env(),
        rt,
        |scope| -> Result<JoinedShift<P::Done>, RunError>
            requires sync { IsSync G.row × IsSync R.row × IsSync P.row }
            requires open { P.IsOpen runner.now }
            requires parts { draws.now.parts ≡ P.part_count runner.now }
            requires of { seat.table ≡ draws.now.table }
            requires new { seat.numbers ≡ [] }
            ensures ok { IfOk result (IsJoinedShift (P.IsDone runner.entry.now) seat) }
            ensures fault { IfErr result (IsWindowFault (P.IsOver runner.entry.now)) }
        {
            let shared = Shared {
                alloc,
                runner,
                draws,
                gate,
            };
            let child = start_worker(scope, &shared, seat, worker, starter)?;
            alone(child.join(rt))
        },
    )
}
