//! A run by a team.
ghost use Rattle.std.specs.Prelude.{◌≡◌, ◌≢◌, ◌⊎◌, ◌+◌, ◌<◌, ◌≤◌, Some, false, length, OnOk, IfOk, IfErr, Err};
ghost use Rattle.std.specs.Thread.{IsSync};
ghost use Rattle.des_machine.specs.Runs.{IsRun};
ghost use Rattle.des_team.specs.Chronicles.{chronicle};
ghost use Rattle.des_team.specs.Layouts.{IsLayout};
ghost use Rattle.des_team.specs.Teams.{IsTeam};
ghost use Rattle.des_output.specs.Watched.{wrapped, has_failed};
ghost use Rattle.des_output.specs.Writing.{is_write};
ghost use Rattle.rtrb.specs.Ring.{producer_capacity};

use crate::course::{Course, Hands};
use crate::layout::Layout;
use crate::link::{Desk, Link};
use crate::named::Named;
use crate::pace::Pace;
use crate::team::Team;
use crate::window_run::run_window;
use crate::worker::serve;
use des_event::{Memory, RunError};
use des_machine::{Machine, Scribe};
use des_output::Watched;
use des_window::Division;
use rtrb::RingBuffer;
use std::alloc::Global;
use std::io::Write;
use std::marker::{Brand, Send, Sync};
use std::sync::Wait;
use std::thread;
use std::thread::{Parker, Scope, Threads};

/// The most workers of a team.
pub const MOST_WORKERS: u32 = 64;

/// How many events are worth waking a worker that sleeps: fewer are run before it is awake.
const EVENTS_OF_A_WORKER: u64 = 250;

/// The links of the first workers beside the caller.
fn first_links<M: Machine, S: Scribe<M> + Drop, J: Named<M>>(
    links: &mut Vec<Link<M, S, J>>,
    count: usize,
) -> &mut [Link<M, S, J>] {
    let most = links.len();
    &mut links[..count.min(most)]
}

/// Whether the caller waited long for one of the workers since this was last asked.
fn take_slow<M: Machine, S: Scribe<M> + Drop, J: Named<M>>(links: &mut Vec<Link<M, S, J>>) -> bool {
    let mut is_slow = false;
    for link in links.iter_mut() {
        is_slow = is_slow || link.is_slow;
        link.is_slow = false;
    }
    is_slow
}

/// Runs the windows, while the workers stand.
fn drive<M: Machine, S: Scribe<M> + Drop, J: Named<M>, R: Wait, W: Write>(
    rt: &R,
    course: &Course<'_, M>,
    team: &mut Team<M, S>,
    links: &mut Vec<Link<M, S, J>>,
    writer: &mut Watched<W>,
) -> Result<S::Report, RunError>
    requires named { J.run ≡ Some (course.now.machine.now, course.now.layout.now) }
    requires at { IsTeam (chronicle (M.model course.now.machine.now) (S.text course.now.machine.now) (S.HasCounted course.now.machine.now)) course.now.layout.now (W.contents (wrapped writer.old)) (W.contents (wrapped writer.old)) team.old }
    requires sound { has_failed writer.old ≡ false }
    ensures run { IsRun (S.text course.now.machine.now) (M.model course.now.machine.now) (S.IsReport course.now.machine.now) (W.contents (wrapped writer.old)) (W.contents (wrapped writer.new)) result }
    ensures writer { has_failed writer.new ≡ is_write result }
    ensures only { IfErr result (λ e. e ≢ RunError.BadDivision) }
{
    let mut pace = Pace::new(course.worth);
    let mut events = 0u64;
    while let Some(opening) = team.opening(course) {
        team.open_window(course, opening)?;
        let before = team.count;
        // A window is likely to have as many events as the one before it.
        let others = pace.others(events, links.len());
        let mut results = Vec::new(course.alloc);
        run_window(rt, course, team, first_links(links, others), &mut results)?;
        pace.learn(events, links.len(), take_slow(links));
        team.put_window(course, results, writer)?;
        events = team.count - before;
    }
    team.finish(course, writer)
}

/// The ends of the rings of a worker, which has at most `parts` parts.
fn make_ends<M: Machine, S: Scribe<M> + Drop, J: Named<M>>(
    alloc: Global,
    parts: usize,
) -> Result<(Link<M, S, J>, Desk<M, S, J>), RunError>
    ensures orders { IfOk result (λ ends. producer_capacity ends.0.orders ≡ parts) }
    ensures replies { IfOk result (λ ends. producer_capacity ends.1.replies ≡ parts) }
    ensures only { IfErr result (λ e. e ≡ RunError.Memory) }
{
    let Ok((to_worker, from_caller)) = RingBuffer::new(alloc, parts) else {
        return Err(RunError::Memory);
    };
    let Ok((to_caller, from_worker)) = RingBuffer::new(alloc, parts) else {
        return Err(RunError::Memory);
    };
    Ok((
        Link {
            orders: to_worker,
            replies: from_worker,
            is_slow: false,
        },
        Desk {
            orders: from_caller,
            replies: to_caller,
        },
    ))
}

/// Starts a worker's thread.
// `Send` is asked of each type of the machine and of the scribe, also of those that are never sent:
// the prover takes no bound of a type into another thread that lacks it.
fn start_worker<
    's,
    E,
    M: Machine + Sync + 's,
    S: Scribe<M> + Drop + Send + 's,
    J: Named<M> + Send + Sync + 's,
    R: Wait + Sync + 's,
>(
    scope: &Scope<'s, E>,
    rt: &'s R,
    course: &Course<'s, M>,
    desk: Desk<M, S, J>,
    worker: usize,
) -> Result<(), RunError>
where
    M::State: Send,
    M::Body: Send,
    M::Piece: Send,
    S::Report: Send,
    requires named { J.run ≡ Some (course.now.machine.now, course.now.layout.now) }
    ensures only { IfErr result (λ e. e ≡ RunError.Worker) }
{
    // Taken apart, since a closure that captures a struct of references loses its contract.
    let &Course {
        alloc,
        machine,
        layout,
        parkers,
        worth,
    } = course;
    let child = scope.spawn(
        move ||
            requires { J.run ≡ Some (machine.now, layout.now) }
        {
            let course = Course {
                alloc,
                machine,
                layout,
                parkers,
                worth,
            };
            serve(rt, &course, desk, worker)
        },
    );
    match child {
        Ok(_child) => Ok(()),
        Err(_refused) => Err(RunError::Worker),
    }
}

/// Starts the threads of all workers but worker 0, which is the calling thread.
fn start_workers<
    's,
    E,
    M: Machine + Sync + 's,
    S: Scribe<M> + Drop + Send + 's,
    J: Named<M> + Send + Sync + 's,
    R: Wait + Sync + 's,
>(
    scope: &Scope<'s, E>,
    rt: &'s R,
    course: &Course<'s, M>,
    links: &mut Vec<Link<M, S, J>>,
) -> Result<(), RunError>
where
    M::State: Send,
    M::Body: Send,
    M::Piece: Send,
    S::Report: Send,
    requires named { J.run ≡ Some (course.now.machine.now, course.now.layout.now) }
    ensures all { OnOk result (0 < length course.now.parkers.now → length links.new.items + 1 ≡ length links.old.items + length course.now.parkers.now) }
    ensures only { IfErr result (λ e. (e ≡ RunError.Worker) ⊎ (e ≡ RunError.Memory)) }
{
    let workers = course.parkers.len();
    let most = course.layout.division.parts() as usize;
    for worker in 1..workers {
        let (link, desk) = make_ends::<M, S, J>(course.alloc, most)?;
        links.push(link)?;
        start_worker(scope, rt, course, desk, worker)?;
    }
    Ok(())
}

/// A parker for each worker.
fn make_parkers(alloc: Global, workers: u32) -> Result<Vec<Parker>, Memory> {
    let mut parkers = Vec::new(alloc);
    for _worker in 0..workers {
        parkers.push(Parker::new())?;
    }
    Ok(parkers)
}

/// Wakes all workers, so that they see that no order can come.
fn wake_all(parkers: &[Parker]) {
    for parker in parkers {
        parker.unpark();
    }
}

/// Starts the workers, and runs the windows.
fn start_and_drive<
    's,
    E,
    M: Machine + Sync + 's,
    S: Scribe<M> + Drop + Send + 's,
    J: Named<M> + Send + Sync + 's,
    R: Wait + Sync + 's,
    W: Write,
>(
    scope: &Scope<'s, E>,
    rt: &'s R,
    course: &Course<'s, M>,
    team: &mut Team<M, S>,
    links: &mut Vec<Link<M, S, J>>,
    writer: &mut Watched<W>,
) -> Result<S::Report, RunError>
where
    M::State: Send,
    M::Body: Send,
    M::Piece: Send,
    S::Report: Send,
    requires named { J.run ≡ Some (course.now.machine.now, course.now.layout.now) }
    requires at { IsTeam (chronicle (M.model course.now.machine.now) (S.text course.now.machine.now) (S.HasCounted course.now.machine.now)) course.now.layout.now (W.contents (wrapped writer.old)) (W.contents (wrapped writer.old)) team.old }
    requires sound { has_failed writer.old ≡ false }
    ensures run { IsRun (S.text course.now.machine.now) (M.model course.now.machine.now) (S.IsReport course.now.machine.now) (W.contents (wrapped writer.old)) (W.contents (wrapped writer.new)) result }
    ensures writer { has_failed writer.new ≡ is_write result }
    ensures only { IfErr result (λ e. e ≢ RunError.BadDivision) }
{
    match start_workers(scope, rt, course, links) {
        Ok(()) => drive(rt, course, team, links, writer),
        Err(error) => Err(error),
    }
}

/// The run of a name, from the start of its threads to their end.
fn run_standing<
    M: Machine + Sync,
    S: Scribe<M> + Drop + Send,
    J: Named<M> + Send + Sync,
    R: Threads + Wait + Sync,
    W: Write,
>(
    rt: &R,
    course: &Course<'_, M>,
    team: Team<M, S>,
    writer: &mut Watched<W>,
) -> Result<S::Report, RunError>
where
    M::State: Send,
    M::Body: Send,
    M::Piece: Send,
    S::Report: Send,
    requires named { J.run ≡ Some (course.now.machine.now, course.now.layout.now) }
    requires at { IsTeam (chronicle (M.model course.now.machine.now) (S.text course.now.machine.now) (S.HasCounted course.now.machine.now)) course.now.layout.now (W.contents (wrapped writer.old)) (W.contents (wrapped writer.old)) team }
    requires sound { has_failed writer.old ≡ false }
    ensures run { IsRun (S.text course.now.machine.now) (M.model course.now.machine.now) (S.IsReport course.now.machine.now) (W.contents (wrapped writer.old)) (W.contents (wrapped writer.new)) result }
    ensures writer { has_failed writer.new ≡ is_write result }
    ensures only { IfErr result (λ e. e ≢ RunError.BadDivision) }
{
    // Taken apart, since a closure that captures a struct of references loses its contract.
    let &Course {
        alloc,
        machine,
        layout,
        parkers,
        worth,
    } = course;
    let (outcome, _writer) = thread::scope(
        thread::scope_env(),
        rt,
        // The writer is moved in and handed back, since the contract has to say what it took.
        move |scope| -> (Result<S::Report, RunError>, &mut Watched<W>)
            requires sync { IsSync R.row × IsSync J.row × IsSync M.row }
            requires named { J.run ≡ Some (machine.now, layout.now) }
            requires at { IsTeam (chronicle (M.model machine.now) (S.text machine.now) (S.HasCounted machine.now)) layout.now (W.contents (wrapped writer.now)) (W.contents (wrapped writer.now)) team }
            requires sound { has_failed writer.now ≡ false }
            ensures same { result.1.ghost_name ≡ writer.entry.ghost_name }
            ensures run { IsRun (S.text machine.entry.now) (M.model machine.entry.now) (S.IsReport machine.entry.now) (W.contents (wrapped writer.entry.now)) (W.contents (wrapped result.1.now)) result.0 }
            ensures writer { has_failed result.1.now ≡ is_write result.0 }
            ensures only { IfErr result.0 (λ e. e ≢ RunError.BadDivision) }
        {
            let course = Course {
                alloc,
                machine,
                layout,
                parkers,
                worth,
            };
            let mut team = team;
            let mut links: Vec<Link<M, S, J>> = Vec::new(alloc);
            let outcome = start_and_drive::<_, M, S, J, R, W>(
                scope,
                rt,
                &course,
                &mut team,
                &mut links,
                &mut *writer,
            );
            // No more can come: the workers end, and the scope joins them.
            drop(links);
            wake_all(parkers);
            // By one call: at the end of a function a struct is dropped field by field.
            drop(team);
            (outcome, writer)
        },
    );
    outcome
}

/// The run of a name.
fn run_named<
    M: Machine + Sync,
    S: Scribe<M> + Drop + Send,
    J: Named<M> + Send + Sync,
    R: Threads + Wait + Sync,
    W: Write,
>(
    rt: &R,
    alloc: Global,
    machine: &M,
    layout: &Layout,
    hands: Hands,
    writer: &mut Watched<W>,
) -> Result<S::Report, RunError>
where
    M::State: Send,
    M::Body: Send,
    M::Piece: Send,
    S::Report: Send,
    requires named { J.run ≡ Some (machine.now, layout.now) }
    requires layout { IsLayout (M.model machine.now).nodes layout.now }
    requires sound { has_failed writer.old ≡ false }
    ensures run { IsRun (S.text machine.now) (M.model machine.now) (S.IsReport machine.now) (W.contents (wrapped writer.old)) (W.contents (wrapped writer.new)) result }
    ensures writer { has_failed writer.new ≡ is_write result }
    ensures only { IfErr result (λ e. e ≢ RunError.BadDivision) }
{
    let parkers = make_parkers(alloc, hands.workers)?;
    let team = Team::start(alloc, machine, layout)?;
    let course = Course {
        alloc,
        machine,
        layout,
        parkers: parkers.as_slice(),
        worth: hands.worth,
    };
    run_standing::<M, S, J, R, W>(rt, &course, team, writer)
}

/// Runs a machine by windows, by 1 to 64 workers whose threads stand for the whole run. The calling
/// thread is one of them. A part of the division has the states of its nodes and their pending
/// events for the whole run. After a window of few events only the first workers run the next one.
/// Writes the trace and returns the report, which depend on neither the workers nor the division.
/// What was written before an error is a beginning of the trace.
///
/// # Errors
///
/// `BadDivision`, if the division has another number of nodes than the machine: nothing is written.
/// `Worker`, if a thread cannot be started: nothing is written. Of several faults of a window
/// `Memory`, else `TooManyEvents`, else `Write`.
pub fn run_team<M: Machine + Sync, S: Scribe<M> + Drop + Send, R: Threads + Wait + Sync, W: Write>(
    rt: &R,
    alloc: Global,
    machine: &M,
    division: &Division,
    workers: u32,
    writer: &mut Watched<W>,
) -> Result<S::Report, RunError>
where
    M::State: Send,
    M::Body: Send,
    M::Piece: Send,
    S::Report: Send,
    requires workers { (0 < workers) × (workers ≤ MOST_WORKERS) }
    requires sound { has_failed writer.old ≡ false }
    ensures run { IsRun (S.text machine.now) (M.model machine.now) (S.IsReport machine.now) (W.contents (wrapped writer.old)) (W.contents (wrapped writer.new)) result }
    ensures writer { has_failed writer.new ≡ is_write result }
    ensures bad { result ≡ Err RunError.BadDivision → (length division.now.of_node ≢ (M.model machine.now).nodes) × (writer.new ≡ writer.old) }
    ensures divides { OnOk result (length division.now.of_node ≡ (M.model machine.now).nodes) }
{
    let hands = Hands {
        workers,
        worth: EVENTS_OF_A_WORKER,
    };
    run_team_by::<M, S, R, W>(rt, alloc, machine, division, hands, writer)
}

/// `run_team`, with another number of events that are worth waking a worker: a test can have all of
/// them woken in each window.
pub fn run_team_by<
    M: Machine + Sync,
    S: Scribe<M> + Drop + Send,
    R: Threads + Wait + Sync,
    W: Write,
>(
    rt: &R,
    alloc: Global,
    machine: &M,
    division: &Division,
    hands: Hands,
    writer: &mut Watched<W>,
) -> Result<S::Report, RunError>
where
    M::State: Send,
    M::Body: Send,
    M::Piece: Send,
    S::Report: Send,
    requires workers { (0 < hands.workers) × (hands.workers ≤ MOST_WORKERS) }
    requires sound { has_failed writer.old ≡ false }
    ensures run { IsRun (S.text machine.now) (M.model machine.now) (S.IsReport machine.now) (W.contents (wrapped writer.old)) (W.contents (wrapped writer.new)) result }
    ensures writer { has_failed writer.new ≡ is_write result }
    ensures bad { result ≡ Err RunError.BadDivision → (length division.now.of_node ≢ (M.model machine.now).nodes) × (writer.new ≡ writer.old) }
    ensures divides { OnOk result (length division.now.of_node ≡ (M.model machine.now).nodes) }
{
    let layout = Layout::new(alloc, machine, division)?;
    run_named::<M, S, Brand, R, W>(rt, alloc, machine, &layout, hands, writer)
}
