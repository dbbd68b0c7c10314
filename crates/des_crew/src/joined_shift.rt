//! The joined results of a window's workers.
ghost use Rattle.std.specs.Prelude.{◌≡◌, ◌⊎◌, ◌≤◌, ◌++◌, Some, None, Err, IfOk, IfErr, IfSome};
ghost use Rattle.des_crew.specs.Windows.{IsFaultOf, JoinsBoth, joined_seats};
ghost use Rattle.des_output.specs.Faults.{rank_of};
ghost use Rattle.std.specs.Result.{ForOk};

use crate::draws::Draws;
use crate::seat::Seat;
use crate::shift::Shift;
use des_event::RunError;
use des_output::graver;

/// The joined results of the workers of a window: the joined seat, and what the parts that they
/// drew leave, in the order of its numbers.
#[derive(Drop)]
pub struct JoinedShift<T> {
    pub seat: Seat,
    pub done: Vec<T>,
}

/// The result of one worker alone.
pub(crate) fn alone<T: Drop>(shift: Shift<T>) -> Result<JoinedShift<T>, RunError>
    ensures ok { IfOk result (λ g. (g.seat ≡ shift.seat) × (g.done.items ≡ shift.done.items) × (shift.fault ≡ None)) }
    ensures fault { IfErr result (λ e. shift.fault ≡ Some e) }
{
    match shift.fault {
        None => Ok(JoinedShift {
            seat: shift.seat,
            done: shift.done,
        }),
        Some(fault) => Err(fault),
    }
}

/// Adds one more worker's seat and results to those of the others.
fn append<T: Drop>(
    draws: &Draws,
    others: JoinedShift<T>,
    mine: JoinedShift<T>,
) -> Result<JoinedShift<T>, RunError>
    requires others { others.seat.table ≡ draws.now.table }
    requires mine { mine.seat.table ≡ draws.now.table }
    ensures seat { IfOk result (λ g. g.seat ≡ joined_seats others.seat mine.seat) }
    ensures done { IfOk result (λ g. g.done.items ≡ others.done.items ++ mine.done.items) }
    ensures memory { IfErr result (λ e. e ≡ RunError.Memory) }
{
    let JoinedShift { mut seat, mut done } = others;
    let JoinedShift {
        seat: last,
        done: mut more,
    } = mine;
    draws.join(&mut seat, last);
    match done.append(&mut more) {
        Ok(()) => Ok(JoinedShift { seat, done }),
        Err(_refused) => Err(RunError::Memory),
    }
}

/// The results of the others and of one more worker, or the graver of their faults.
pub(crate) fn gather<T: Drop>(
    draws: &Draws,
    others: Result<JoinedShift<T>, RunError>,
    shift: Shift<T>,
) -> Result<JoinedShift<T>, RunError>
    requires others { ForOk others (λ o. o.seat.table ≡ draws.now.table) }
    requires shift { shift.seat.table ≡ draws.now.table }
    ensures ok { IfOk result (JoinsBoth others shift) }
    ensures fault { IfErr result (IsFaultOf others shift) }

    // Neither the others nor this worker has a graver fault.
    ensures theirs { IfErr result (λ e. IfErr others (λ f. rank_of e ≤ rank_of f)) }
    ensures mine { IfErr result (λ e. IfSome shift.fault (λ f. rank_of e ≤ rank_of f)) }
{
    match (others, alone(shift)) {
        (Ok(others), Ok(mine)) => append(draws, others, mine),
        (Ok(_), Err(fault)) | (Err(fault), Ok(_)) => Err(fault),
        (Err(one), Err(other)) => Err(graver(one, other)),
    }
}
