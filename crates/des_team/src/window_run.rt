//! The run of one window by the team.
ghost use Rattle.std.specs.Prelude.{◌≡◌, ◌⊎◌, ◌*◌, ◌/◌, ◌^◌, ◌<◌, ◌≤◌, [], Option, None, Some, length, max, OnOk, IfOk, IfErr, IfSome, Err};
ghost use Rattle.des_model.specs.Histories.{IsOverLimit};
ghost use Rattle.des_output.specs.Faults.{rank_of};
ghost use Rattle.des_team.specs.Chronicles.{chronicle};
ghost use Rattle.des_team.specs.Faults.{IsGravestOf, IsWindowFault};
ghost use Rattle.des_team.specs.Orders.{AreResults, HaveNoFault, IsResultOf};
ghost use Rattle.des_team.specs.Teams.{CanSend};

use crate::course::Course;
use crate::link::{Link, next_item};
use crate::named::Named;
use crate::order::Order;
use crate::part::Done;
use crate::team::Team;
use crate::waiting::is_long;
use des_event::RunError;
use des_machine::{Machine, Scribe};
use des_output::graver;
use std::sync::Wait;

/// The worker that runs a part in a window of so many workers. Neighbouring parts have one worker,
/// so those of worker 0, which is the calling thread, come first.
fn worker_of(part: u32, parts: u32, workers: usize) -> usize
    ensures { part * workers < 2 ^ 64 → result ≡ part * workers / max parts 1 }
{
    let before = u64::from(part).saturating_mul(workers as u64);
    (before / u64::from(parts.max(1))) as usize
}

/// Sends a part to its worker, if the part is here.
fn send_part<M: Machine, S: Scribe<M> + Drop, J: Named<M>>(
    course: &Course<'_, M>,
    team: &mut Team<M, S>,
    link: &mut Link<M, S, J>,
    part: u32,
) -> Result<(), RunError>
    requires named { J.run ≡ Some (course.now.machine.now, course.now.layout.now) }
    requires part { part < length team.old.parcels.items }
    requires can_send { CanSend (chronicle (M.model course.now.machine.now) (S.text course.now.machine.now) (S.HasCounted course.now.machine.now)) course.now.layout.now team.old }
    ensures can_send { CanSend (chronicle (M.model course.now.machine.now) (S.text course.now.machine.now) (S.HasCounted course.now.machine.now)) course.now.layout.now team.new }
    ensures others { team.new ≡ record team.old { parcels = team.new.parcels } }
    ensures only { IfErr result (λ e. e ≡ RunError.Worker) }
{
    let Some(parcel) = team.take_out(course, part) else {
        return Ok(());
    };
    match link.orders.push(Order::new(parcel)) {
        Ok(()) => Ok(()),
        Err(_) => Err(RunError::Worker),
    }
}

/// Sends the parts of the other workers to them, and wakes each.
fn send_others<M: Machine, S: Scribe<M> + Drop, J: Named<M>>(
    course: &Course<'_, M>,
    team: &mut Team<M, S>,
    links: &mut [Link<M, S, J>],
) -> Result<(), RunError>
    requires named { J.run ≡ Some (course.now.machine.now, course.now.layout.now) }
    requires can_send { CanSend (chronicle (M.model course.now.machine.now) (S.text course.now.machine.now) (S.HasCounted course.now.machine.now)) course.now.layout.now team.old }
    ensures can_send { CanSend (chronicle (M.model course.now.machine.now) (S.text course.now.machine.now) (S.HasCounted course.now.machine.now)) course.now.layout.now team.new }
    ensures others { team.new ≡ record team.old { parcels = team.new.parcels } }
    ensures only { IfErr result (λ e. e ≡ RunError.Worker) }
{
    let parts = course.layout.division.parts();
    let workers = links.len() + 1;
    for part in 0..parts {
        let worker = worker_of(part, parts, workers);
        if 0 < worker && worker < workers {
            send_part(course, team, &mut links[worker - 1], part)?;
            if let Some(parker) = course.parkers.get(worker) {
                parker.unpark();
            }
        }
    }
    Ok(())
}

/// Receives what a worker leaves of a part.
fn receive<M: Machine, S: Scribe<M> + Drop, J: Named<M>, R: Wait>(
    rt: &R,
    course: &Course<'_, M>,
    team: &Team<M, S>,
    link: &mut Link<M, S, J>,
    part: u32,
) -> Result<Done<M, S>, RunError>
    requires named { J.run ≡ Some (course.now.machine.now, course.now.layout.now) }
    ensures of { IfOk result (IsResultOf (chronicle (M.model course.now.machine.now) (S.text course.now.machine.now) (S.HasCounted course.now.machine.now)) course.now.layout.now part team.now.count team.now.window.horizon) }
    ensures only { IfErr result (λ e. e ≡ RunError.Worker) }
{
    let Some(caller) = course.parkers.first() else {
        return Err(RunError::Worker);
    };
    let (reply, turns) = next_item(rt, &mut link.replies, caller);
    link.is_slow = link.is_slow || is_long(turns);
    let Some(reply) = reply else {
        return Err(RunError::Worker);
    };
    let result = reply.expect(
        course.machine,
        course.layout,
        part,
        team.count,
        team.window.horizon,
    );
    match result {
        Some(left) => Ok(left),
        None => Err(RunError::Worker),
    }
}

/// What the window leaves of a part: it is run here if it is here, else its worker runs it.
fn finish_part<M: Machine, S: Scribe<M> + Drop, J: Named<M>, R: Wait>(
    rt: &R,
    course: &Course<'_, M>,
    team: &mut Team<M, S>,
    links: &mut [Link<M, S, J>],
    part: u32,
) -> Result<Done<M, S>, RunError>
    requires named { J.run ≡ Some (course.now.machine.now, course.now.layout.now) }
    requires part { part < length team.old.parcels.items }
    requires can_send { CanSend (chronicle (M.model course.now.machine.now) (S.text course.now.machine.now) (S.HasCounted course.now.machine.now)) course.now.layout.now team.old }
    ensures can_send { CanSend (chronicle (M.model course.now.machine.now) (S.text course.now.machine.now) (S.HasCounted course.now.machine.now)) course.now.layout.now team.new }
    ensures others { team.new ≡ record team.old { parcels = team.new.parcels } }
    ensures of { IfOk result (IsResultOf (chronicle (M.model course.now.machine.now) (S.text course.now.machine.now) (S.HasCounted course.now.machine.now)) course.now.layout.now part team.old.count team.old.window.horizon) }
    ensures only { IfErr result (λ e. e ≡ RunError.Worker) }
{
    if let Some(parcel) = team.take_out(course, part) {
        return Ok(parcel.run(course.alloc, course.machine, course.layout));
    }
    let worker = worker_of(part, course.layout.division.parts(), links.len() + 1);
    if worker == 0 || worker > links.len() {
        return Err(RunError::Worker);
    }
    receive(rt, course, team, &mut links[worker - 1], part)
}

/// Adds what the window leaves of all parts, in their order.
fn finish_parts<M: Machine, S: Scribe<M> + Drop, J: Named<M>, R: Wait>(
    rt: &R,
    course: &Course<'_, M>,
    team: &mut Team<M, S>,
    links: &mut [Link<M, S, J>],
    results: &mut Vec<Done<M, S>>,
) -> Result<(), RunError>
    requires named { J.run ≡ Some (course.now.machine.now, course.now.layout.now) }
    requires can_send { CanSend (chronicle (M.model course.now.machine.now) (S.text course.now.machine.now) (S.HasCounted course.now.machine.now)) course.now.layout.now team.old }
    requires none { results.old.items ≡ [] }
    ensures can_send { CanSend (chronicle (M.model course.now.machine.now) (S.text course.now.machine.now) (S.HasCounted course.now.machine.now)) course.now.layout.now team.new }
    ensures others { team.new ≡ record team.old { parcels = team.new.parcels } }
    ensures results { OnOk result (AreResults (chronicle (M.model course.now.machine.now) (S.text course.now.machine.now) (S.HasCounted course.now.machine.now)) course.now.layout.now team.old.count team.old.window.horizon results.new.items) }
    ensures only { IfErr result (λ e. (e ≡ RunError.Worker) ⊎ ((e ≡ RunError.Memory) × (length results.new.items < course.now.layout.now.division.parts))) }
{
    for part in 0..course.layout.division.parts() {
        let left = finish_part(rt, course, team, links, part)?;
        results.push(left)?;
    }
    Ok(())
}

/// The graver of two faults, of which either may be missing.
fn graver_of(one: Option<RunError>, other: Option<RunError>) -> Option<RunError>
    ensures none { result ≡ None → (one ≡ None) × (other ≡ None) }
    ensures either { IfSome result (λ e. (one ≡ Some e) ⊎ (other ≡ Some e)) }
    ensures first { IfSome result (λ e. IfSome one (λ f. rank_of e ≤ rank_of f)) }
    ensures second { IfSome result (λ e. IfSome other (λ f. rank_of e ≤ rank_of f)) }
{
    match (one, other) {
        (Some(fault), None) | (None, Some(fault)) => Some(fault),
        (Some(fault), Some(next)) => Some(graver(fault, next)),
        (None, None) => None,
    }
}

/// The gravest fault of the results, if there is one.
fn gravest_fault<M: Machine, S>(results: &[Done<M, S>]) -> Option<RunError>
    ensures none { result ≡ None → HaveNoFault results.now }
    ensures gravest { IfSome result (IsGravestOf results.now) }
{
    let mut gravest = None;
    for left in results {
        gravest = graver_of(gravest, left.fault);
    }
    gravest
}

/// Runs the window that is open, by as many workers as there are links and the calling thread: its
/// parts here, those of the others by them. Adds what is left of all parts to the results, in their
/// order. Returns the gravest of their faults, if there is one.
pub fn run_window<M: Machine, S: Scribe<M> + Drop, J: Named<M>, R: Wait>(
    rt: &R,
    course: &Course<'_, M>,
    team: &mut Team<M, S>,
    links: &mut [Link<M, S, J>],
    results: &mut Vec<Done<M, S>>,
) -> Result<(), RunError>
    requires named { J.run ≡ Some (course.now.machine.now, course.now.layout.now) }
    requires can_send { CanSend (chronicle (M.model course.now.machine.now) (S.text course.now.machine.now) (S.HasCounted course.now.machine.now)) course.now.layout.now team.old }
    requires none { results.old.items ≡ [] }
    ensures can_send { CanSend (chronicle (M.model course.now.machine.now) (S.text course.now.machine.now) (S.HasCounted course.now.machine.now)) course.now.layout.now team.new }
    ensures others { team.new ≡ record team.old { parcels = team.new.parcels } }
    ensures results { OnOk result (AreResults (chronicle (M.model course.now.machine.now) (S.text course.now.machine.now) (S.HasCounted course.now.machine.now)) course.now.layout.now team.old.count team.old.window.horizon results.new.items) }
    ensures no_fault { OnOk result (HaveNoFault results.new.items) }
    ensures fault { IfErr result (IsWindowFault course.now.layout.now.division.parts results.new.items) }
    ensures over { result ≡ Err RunError.TooManyEvents → IsOverLimit (M.model course.now.machine.now) }
    ensures only { IfErr result (λ e. (e ≡ RunError.Worker) ⊎ (e ≡ RunError.Memory) ⊎ (e ≡ RunError.TooManyEvents)) }
{
    send_others(course, team, links)?;
    finish_parts(rt, course, team, links, results)?;
    match gravest_fault(results.as_slice()) {
        Some(fault) => Err(fault),
        None => Ok(()),
    }
}
