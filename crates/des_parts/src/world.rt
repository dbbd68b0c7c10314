//! The state of a run between two windows.
ghost use Rattle.std.specs.Prelude.{◌≢◌, ◌⊎◌, IfErr, IfSome, Err, Some, ◌≡◌, ◌<◌, ◌≤◌, ◌++◌, [], ℕ, length, List, OnOk, IfOk};
ghost use Rattle.std.specs.List.{All, AllByRecursion};
ghost use Rattle.des_model.specs.Histories.{history};
ghost use Rattle.des_model.specs.PartRuns.{horizon_after};
ghost use Rattle.des_model.specs.Windows.{Divides};
ghost use Rattle.des_parts.specs.declared.world.World.{World as AWorld};
ghost use Rattle.des_parts.specs.Worlds.{IsWorldOf, StandAfter};
ghost use Rattle.des_parts.specs.Delivery.{CanDeliver, HasDelivered, IsAhead, LeastIs, HasOpened, OpensAt, horizon_of};

use des_event::{Brief, Event, Memory, RunError};
use des_machine::{AuditClock, Machine};
use des_queue::Pending;
use des_window::{Division, Opening, horizon_from, sooner};
use std::alloc::Global;

/// The pending events of a part: those of the next window, in the order of their keys, and the
/// others. The due ones are taken out when the window is opened, since its horizon depends on the
/// world alone. A part reads them by reference while it runs.
#[derive(Drop)]
pub struct PartEvents<B: Brief> {
    pub due: Vec<Event<B>>,
    pub later: Pending<B>,
}

/// What the windows so far have left: the states and the pending events after the first `count`
/// events of the run, by part. It borrows nothing. The fields are public so that contracts can name
/// them: callers should not read them.
#[derive(Drop)]
pub struct World<T, B: Brief> {
    /// How many events were taken.
    pub count: u64,
    pub division: Division,
    pub states: Vec<T>,
    pub parts: Vec<PartEvents<B>>,
    /// The audits that are still to come, since no window goes past the next one.
    pub clock: AuditClock,
    /// The next window.
    pub opening: Option<Opening>,
}

impl<B: Brief + Drop> PartEvents<B> {
    /// Drops the due events, and takes the later ones that are before a time in their place.
    fn take_due(&mut self, horizon: u64) -> Result<(), Memory>
        ensures all { OnOk result (self.new.due.items ++ self.new.later ≡ self.old.later) }
        ensures early { OnOk result (AllByRecursion (λ e. e.key.time < horizon) self.new.due.items) }
        ensures late { OnOk result (AllByRecursion (λ e. horizon ≤ e.key.time) self.new.later) }
    {
        self.due.clear();
        while let Some(time) = self.later.first_time() {
            self.later.recall_order();
            if time >= horizon {
                return Ok(());
            }
            if let Some(event) = self.later.pop_first() {
                self.due.push(event)?;
            }
        }
        Ok(())
    }
}

/// `parts` parts without events.
pub fn empty_parts<B: Brief + Drop>(alloc: Global, parts: u32) -> Result<Vec<PartEvents<B>>, Memory>
    ensures long { IfOk result (λ list. length list.items ≡ parts) }
    ensures none { IfOk result (λ list. AllByRecursion (λ e. e.later ≡ []) list.items) }
{
    let mut list = Vec::new(alloc);
    for _part in 0..parts {
        list.push(PartEvents {
            due: Vec::new(alloc),
            later: Pending::new(alloc),
        })?;
    }
    Ok(list)
}

impl<T: Drop, B: Brief + Drop> World<T, B> {
    /// The start of a run, by a division of the machine's nodes.
    ///
    /// # Errors
    ///
    /// `BadDivision`, if the division has another number of nodes than the machine; `Memory`.
    pub fn start<M: Machine<State = T, Body = B>>(
        alloc: Global,
        machine: &M,
        division: &Division,
    ) -> Result<World<T, B>, RunError>
        ensures world { IfOk result (λ world. IsWorldOf (M.model machine.now) world) }
        ensures count { IfOk result (λ world. world.count ≡ 0) }
        ensures division { IfOk result (λ world. world.division ≡ division.now) }
        ensures bad { result ≡ Err RunError.BadDivision → length division.now.of_node ≢ (M.model machine.now).nodes }
        ensures only { IfErr result (λ e. (e ≡ RunError.Memory) ⊎ (e ≡ RunError.BadDivision)) }
    {
        machine.recall();
        expect_division(machine, division)?;
        let clock = AuditClock::new(machine.audit_times(alloc)?);
        let states = machine.start_states(alloc)?;
        let mut parts = empty_parts(alloc, division.parts())?;
        let events = machine.start_events(alloc)?;
        let opening = fill_parts(machine, &clock, division, &mut parts, events)?;
        Ok(World {
            count: 0,
            // A copy, so that a world borrows nothing.
            division: division.try_clone()?,
            states,
            parts,
            clock,
            opening,
        })
    }

    /// The time in microseconds that the next window's events are before, or `None` if no event
    /// before the duration is pending. The machine is the one that the world was started from.
    pub fn horizon<M: Machine<State = T, Body = B>>(&self, machine: &M) -> Option<u64>
        requires { IsWorldOf (M.model machine.now) self.now }
        ensures horizon { result ≡ horizon_after (M.model machine.now) (history (M.model machine.now) self.now.count) }
        ensures opening { IfSome result (λ h. (time : ℕ) × (self.now.opening ≡ Some (record { time = time; horizon = h }))) }
    {
        machine.recall();
        let opening = self.opening?;
        Some(opening.horizon)
    }
}

/// Refuses a division of another number of nodes.
pub fn expect_division<M: Machine>(machine: &M, division: &Division) -> Result<(), RunError>
    ensures divides { OnOk result (Divides division.now (M.model machine.now).nodes) }
    ensures bad { result ≡ Err RunError.BadDivision → length division.now.of_node ≢ (M.model machine.now).nodes }
    ensures only { IfErr result (λ e. e ≡ RunError.BadDivision) }
{
    division.recall_division();
    if division.nodes() != machine.nodes() as usize {
        return Err(RunError::BadDivision);
    }
    Ok(())
}

/// Gives all pending events of a run to parts that have none, and opens the next window.
pub fn fill_parts<M: Machine>(
    machine: &M,
    clock: &AuditClock,
    division: &Division,
    parts: &mut Vec<PartEvents<M::Body>>,
    events: Vec<Event<M::Body>>,
) -> Result<Option<Opening>, Memory>
    requires divides { Divides division.now (M.model machine.now).nodes }
    requires long { length parts.old.items ≡ division.now.parts }
    requires none { AllByRecursion (λ e. e.later ≡ []) parts.old.items }
    requires stand { (count : ℕ) × (states : List M.State) × StandAfter (M.model machine.now) count states clock.now events.items }
    ensures { IfOk result (λ opening. (world : AWorld M.State M.Body) → StandAfter (M.model machine.now) world.count world.states.items clock.now events.items → world.division ≡ division.now → world.parts ≡ parts.new → world.clock ≡ clock.now → world.opening ≡ opening → IsWorldOf (M.model machine.now) world) }
{
    machine.recall();
    let mut events = events;
    // The first event goes in first: a calendar opens the day of the first event that it takes, and
    // events of days before it would go into the heap.
    events.sort_unstable_by_key(|event| event.key);
    deliver(parts, division, events)?;
    Ok(open_window(machine, clock, parts)?)
}

/// Adds events to the later ones of the parts of their targets.
pub(crate) fn deliver<B: Brief + Drop>(
    parts: &mut Vec<PartEvents<B>>,
    division: &Division,
    mail: Vec<Event<B>>,
) -> Result<(), Memory>
    requires parts { length parts.old.items ≡ division.now.parts }
    requires division { All (λ p. p < division.now.parts) division.now.of_node }
    requires targets { All (λ e. e.target < length division.now.of_node) mail.items }
    requires each { CanDeliver parts.old.items mail.items }
    ensures { OnOk result (HasDelivered division.now parts.old.items parts.new.items mail.items []) }
{
    for event in mail {
        let part = division.part_of(event.target) as usize;
        if let Err(refused) = parts[part].later.insert(event) {
            // By a call, so that the proof has one case and not one for each kind of body.
            drop(refused);
            return Err(Memory);
        }
    }
    Ok(())
}

/// The time of the first of all later events.
fn first_time<B: Brief + Drop>(parts: &[PartEvents<B>]) -> Option<u64>
    ensures { LeastIs parts.now (length parts.now) result }
{
    let mut least = None;
    for part in 0..parts.len() {
        let later = &parts[part].later;
        later.recall_order();
        least = sooner(least, later.first_time());
    }
    least
}

/// The next window, if there is one.
fn next_opening<M: Machine>(
    machine: &M,
    clock: &AuditClock,
    parts: &[PartEvents<M::Body>],
) -> Option<Opening>
    requires { IsAhead (M.model machine.now) clock.now parts.now }
    ensures { OpensAt (M.model machine.now) parts.now result }
{
    let Some(time) = first_time(parts) else {
        return None;
    };
    if time >= machine.duration() {
        return None;
    }
    Some(Opening {
        time,
        horizon: horizon_from(machine, clock, time),
    })
}

fn horizon_of(opening: Option<Opening>) -> u64
    ensures { result ≡ horizon_of opening }
{
    match opening {
        Some(window) => window.horizon,
        None => 0,
    }
}

/// Makes the later events of the next window due, if there is one.
pub(crate) fn open_window<M: Machine>(
    machine: &M,
    clock: &AuditClock,
    parts: &mut Vec<PartEvents<M::Body>>,
) -> Result<Option<Opening>, Memory>
    requires { IsAhead (M.model machine.now) clock.now parts.old.items }
    ensures { IfOk result (λ opening. HasOpened (M.model machine.now) parts.old.items parts.new.items opening) }
{
    let opening = next_opening(machine, clock, parts.as_slice());
    let horizon = horizon_of(opening);
    for part in 0..parts.len() {
        parts[part].take_due(horizon)?;
    }
    Ok(opening)
}
